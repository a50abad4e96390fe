// A key for each row: its cell and its number.
ghost use Rattle.std.specs.Prelude.{◌≡◌, true, IfOk, ◌==◌, ◌&&◌};
ghost use Rattle.std.specs.List.Sorted.{IsPermutation};
ghost use Rattle.shapes.specs.Arrays.{storage, offset as offset_in};
ghost use Rattle.shapes.specs.Views.{dims_of};
ghost use Rattle.sources.specs.Rows.{in_range};
ghost use Rattle.chunk_writers.specs.Keys.{Ordered, InRange, all_keys, Repeated};

use shapes::Shape;
use sources::Row;
use std::alloc::{AllocError, Global};

// A row by its cell: the storage number of the chunk, and the offset there.
#[derive(Clone, Copy, PartialEq, Eq, PartialOrd, Ord)]
pub(crate) struct Key {
    pub(crate) chunk: u64,
    pub(crate) offset: u32,
    pub(crate) row: usize,
}

impl Key {
    // The key of a row that is in range, and has this number.
    fn new(shape: &Shape, row: Row, number: usize) -> Key
        requires { in_range (dims_of shape.now) row ≡ true }
        ensures { result ≡ record { chunk = storage (dims_of shape.now) row.at; offset = offset_in (dims_of shape.now) row.at; row = number } }
    {
        let (chunk, offset) = row.place(shape).unwrap_or((0, 0));
        Key {
            chunk,
            offset,
            row: number,
        }
    }

    fn is_on_cell_of(&self, other: &Key) -> bool
        ensures { result ≡ (self.now.chunk == other.now.chunk && self.now.offset == other.now.offset) }
    {
        (self.chunk, self.offset) == (other.chunk, other.offset)
    }
}

// The keys of rows that are in range, in the order of the rows. They are pushed and not collected: `with_capacity` takes
// room for just these, and `collect` promises none.
fn keys_of(heap: Global, shape: &Shape, rows: &[Row]) -> Result<Vec<Key>, AllocError>
    requires { InRange (dims_of shape.now) rows.now }
    ensures { IfOk result (λ v. v.items ≡ all_keys (dims_of shape.now) rows.now) }
{
    let mut keys = Vec::with_capacity(heap, rows.len())?;
    for (number, row) in rows.iter().enumerate() {
        keys.push(Key::new(shape, *row, number))?;
    }
    Ok(keys)
}

// The keys by rising cell, and those of one cell by rising row.
fn sort_keys(keys: &mut Vec<Key>)
    ensures shuffled { IsPermutation keys.old.items keys.new.items }
    ensures ordered { Ordered keys.new.items }
{
    keys.sort_unstable();
}

// The keys of rows that are in range, by rising cell, and those of one cell by rising row.
pub(crate) fn sorted_keys(heap: Global, shape: &Shape, rows: &[Row]) -> Result<Vec<Key>, AllocError>
    requires { InRange (dims_of shape.now) rows.now }
    ensures { IfOk result (λ v. IsPermutation (all_keys (dims_of shape.now) rows.now) v.items × Ordered v.items) }
{
    let mut keys = keys_of(heap, shape, rows)?;
    sort_keys(&mut keys);
    Ok(keys)
}

// Of keys by rising cell, the least row that comes second on a cell.
pub(crate) fn least_repeated(keys: &[Key]) -> Option<usize>
    ensures { Repeated keys.now result }
{
    keys.iter()
        .zip(keys.iter().skip(1))
        .filter(|(first, second)| second.is_on_cell_of(first))
        .map(|(_, second)| second.row)
        .min()
}
