// Numbers in bytes, the lowest byte first. A byte past the end counts as 0.
ghost use Rattle.std.specs.Prelude.{◌≡◌, ◌+◌, map, drop, slice_index};
ghost use Rattle.std.specs.List.{range_with_len};
ghost use Rattle.chunk_files.specs.Layouts.{half, word, dim_at, entry_at};

use crate::entry::Entry;
use shapes::Dim;
use std::array;

fn byte_at(bytes: &[u8], p: usize) -> u8
    ensures { result ≡ slice_index bytes.now p }
{
    bytes.get(p).copied().unwrap_or(0)
}

// The bytes from byte p on.
pub(crate) fn bytes_from(bytes: &[u8], p: usize) -> &[u8]
    ensures { result.now ≡ drop p bytes.now }
{
    bytes.get(p..).unwrap_or(&[])
}

// N bytes from byte p on.
fn bytes_at<const N: usize>(bytes: &[u8], p: usize) -> [u8; N]
    ensures { result ≡ map (λ i. slice_index bytes.now (p + i)) (range_with_len 0 N) }
{
    let rest = bytes_from(bytes, p);
    // All at once where they are there, as in a body; byte by byte takes a quarter more time.
    match rest.first_chunk() {
        Some(raw) => *raw,
        None => array::from_fn(|i| byte_at(rest, i)),
    }
}

// One function for each size: `from_le_bytes` stands at each type of numbers, and no trait has it.
pub(crate) fn half_at(bytes: &[u8], p: usize) -> u16
    ensures { result ≡ half bytes.now p }
{
    u16::from_le_bytes(bytes_at(bytes, p))
}

pub(crate) fn word_at(bytes: &[u8], p: usize) -> u32
    ensures { result ≡ word bytes.now p }
{
    u32::from_le_bytes(bytes_at(bytes, p))
}

pub(crate) fn read_dim(bytes: &[u8], p: usize) -> Dim
    ensures { result ≡ dim_at bytes.now p }
{
    let raw = bytes_from(bytes, p);
    Dim {
        size: word_at(raw, 0),
        edge: word_at(raw, 4),
    }
}

pub(crate) fn read_entry(bytes: &[u8], p: usize) -> Entry
    ensures { result ≡ entry_at bytes.now p }
{
    let raw = bytes_from(bytes, p);
    Entry {
        start: word_at(raw, 0),
        count: half_at(raw, 4),
        kind: byte_at(raw, 6),
        spare: byte_at(raw, 7),
    }
}
