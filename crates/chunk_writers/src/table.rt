// Rows with their keys in order, as they are written.
ghost use Rattle.std.specs.Prelude.{◌≡◌, ℕ, ◌+◌, ◌*◌, ◌<◌, ◌≤◌, length, ◌==◌};
ghost use Rattle.std.specs.List.{flat_map, prefix_len};
ghost use Rattle.shapes.specs.Arrays.{volume, total_chunks};
ghost use Rattle.shapes.specs.Views.{dims_of};
ghost use Rattle.chunk_files.specs.Layouts.{entry_bytes, directory_at, bodies_at};
ghost use Rattle.chunk_writers.specs.declared.keys.Key.{Key as RowKey};
ghost use Rattle.chunk_writers.specs.Keys.{InRange, Each, Every, Rises, Onward};
ghost use Rattle.chunk_writers.specs.Written.{put, entries_of, bodies_of, file_bytes, in_chunk, in_chunks};

use crate::bodies::Body;
use crate::keys::Key;
use crate::puts::put_entry;
use shapes::Shape;
use sources::Row;

// Rows in range, each with a cell of its own, and their keys by rising cell.
#[derive(Clone, Copy)]
pub(crate) struct Table<'a> {
    pub(crate) shape: Shape,
    pub(crate) rows: &'a [Row],
    pub(crate) keys: &'a [Key],
    ghost ranged: { InRange (dims_of shape) rows.now },
    ghost each: { Each (dims_of shape) rows.now keys.now },
    ghost every: { Every rows.now keys.now },
    ghost rises: { Rises keys.now },
}

// How many keys at the front are of this chunk.
fn count_front(keys: &[Key], chunk: u64) -> usize
    ensures { result ≡ prefix_len (λ (k : RowKey). k.chunk == chunk) keys.now }
{
    keys.iter().take_while(|key| key.chunk == chunk).count()
}

// The byte at which the directory begins. The reader has the same of its own: each of the two is held to the layout by itself.
fn directory_start(shape: &Shape) -> usize
    ensures { (result ≡ directory_at (dims_of shape.now)) × (result ≤ 52) }
{
    4 + 8 * shape.dimensions()
}

// The byte at which the bodies begin.
#[tactic(auto, using(shapes::proofs::Held::chunks_few))]
fn bodies_start(shape: &Shape) -> usize
    ensures { (result ≡ bodies_at (dims_of shape.now)) × (result ≤ 137438953524) }
{
    directory_start(shape) + 8 * shape.total_chunks() as usize
}

impl<'a> Table<'a> {
    ghost use Rattle.chunk_writers.specs.Tables.{cells_of, cells_in};

    // The body of a chunk and the keys of the chunks after it, of the keys of the chunks from it on.
    fn split_body(&self, keys: &'a [Key], chunk: u64) -> (Body<'a>, &'a [Key])
        requires within { chunk < total_chunks (dims_of self.now.shape) }
        requires onward { Onward self.now.keys.now chunk keys.now }
        ensures cells { result.0.cells ≡ volume (dims_of self.now.shape) }
        ensures body { cells_of result.0 ≡ in_chunk (dims_of self.now.shape) self.now.rows.now chunk }
        ensures onward { Onward self.now.keys.now (chunk + 1) result.1.now }
        ensures all { length result.0.keys.now + length result.1.now ≡ length keys.now }
    {
        let (here, rest) = keys.split_at(count_front(keys, chunk));
        let body = Body {
            cells: self.shape.chunk_cells() as usize,
            rows: self.rows,
            keys: here,
        };
        (body, rest)
    }

    // How many bytes the file has. This takes a turn for each chunk that has rows, and none for the others.
    pub(crate) fn size(&self) -> usize
        ensures { result ≡ length (file_bytes (dims_of self.now.shape) (cells_in self.now)) }
    {
        let mut size = bodies_start(&self.shape);
        let mut keys = self.keys;
        while let Some(key) = keys.first() {
            let (body, rest) = self.split_body(keys, key.chunk);
            size += body.size();
            keys = rest;
        }
        size
    }

    // The entry and the body of each chunk.
    pub(crate) fn put_chunks(&self, out: &mut [u8])
        requires fits { length (file_bytes (dims_of self.now.shape) (cells_in self.now)) ≤ length out.old }
        requires short { length (file_bytes (dims_of self.now.shape) (cells_in self.now)) ≤ 4294967295 }
        ensures { out.new ≡ put (put out.old (directory_at (dims_of self.now.shape)) (flat_map entry_bytes (entries_of (volume (dims_of self.now.shape)) (bodies_at (dims_of self.now.shape)) (cells_in self.now)))) (bodies_at (dims_of self.now.shape)) (flat_map (λ b. b) (bodies_of (volume (dims_of self.now.shape)) (cells_in self.now))) }
    {
        let from = directory_start(&self.shape);
        let mut at = bodies_start(&self.shape);
        let mut keys = self.keys;
        for chunk in 0..self.shape.total_chunks() {
            let (body, rest) = self.split_body(keys, chunk);
            put_entry(out, from + 8 * chunk as usize, body.entry(at as u32));
            body.put(out, at);
            at += body.size();
            keys = rest;
        }
    }
}
