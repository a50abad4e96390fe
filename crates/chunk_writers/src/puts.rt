// The pieces of a file. Each writes bytes from a place on, and leaves the rest of the buffer.
// The place is passed beside the buffer, and no cursor holds both: entries and bodies are written in turn, each at a place of its own.
ghost use Rattle.std.specs.Prelude.{◌≡◌, ◌+◌, ◌*◌, ◌<◌, ◌≤◌, [], ◌∷◌, length};
ghost use Rattle.std.specs.List.{flat_map};
ghost use Rattle.shapes.specs.Views.{dims_of};
ghost use Rattle.chunk_files.specs.Layouts.{dim_bytes, header_bytes, entry_bytes, directory_at};
ghost use Rattle.chunk_files.specs.Bodies.{pair_bytes};
ghost use Rattle.chunk_writers.specs.Written.{put};

use chunk_files::Entry;
use shapes::{Dim, Shape};

pub(crate) fn put_bytes(out: &mut [u8], at: usize, bytes: &[u8])
    requires { at + length bytes.now ≤ length out.old }
    ensures { out.new ≡ put out.old at bytes.now }
{
    out[at..at + bytes.len()].copy_from_slice(bytes);
}

pub(crate) fn put_pair(out: &mut [u8], at: usize, offset: u16, reading: u32)
    requires { at + 6 ≤ length out.old }
    ensures { out.new ≡ put out.old at (pair_bytes (record { offset = offset; reading = reading })) }
{
    put_bytes(out, at, &offset.to_le_bytes());
    put_bytes(out, at + 2, &reading.to_le_bytes());
}

pub(crate) fn put_entry(out: &mut [u8], at: usize, e: Entry)
    requires { at + 8 ≤ length out.old }
    ensures { out.new ≡ put out.old at (entry_bytes e) }
{
    put_bytes(out, at, &e.start.to_le_bytes());
    put_bytes(out, at + 4, &e.count.to_le_bytes());
    put_bytes(out, at + 6, &[e.kind, e.spare]);
}

fn put_dim(out: &mut [u8], at: usize, d: Dim)
    requires { at + 8 ≤ length out.old }
    ensures { out.new ≡ put out.old at (dim_bytes d) }
{
    put_bytes(out, at, &d.size.to_le_bytes());
    put_bytes(out, at + 4, &d.edge.to_le_bytes());
}

fn put_dims(out: &mut [u8], at: usize, dims: &[Dim])
    requires { at + 8 * length dims.now ≤ length out.old }
    ensures { out.new ≡ put out.old at (flat_map dim_bytes dims.now) }
{
    for (i, dim) in dims.iter().enumerate() {
        put_dim(out, at + 8 * i, *dim);
    }
}

// The version, the number of dimensions, two zero bytes, and the dimensions.
pub(crate) fn put_header(out: &mut [u8], shape: &Shape)
    requires { directory_at (dims_of shape.now) ≤ length out.old }
    ensures { out.new ≡ put out.old 0 (header_bytes (dims_of shape.now)) }
{
    let n = shape.dimensions();
    let dims = shape.dims();
    put_bytes(out, 0, &[1, n as u8, 0, 0]);
    put_dims(out, 4, &dims[..n]);
}
