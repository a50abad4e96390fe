// Work on the cells of a chunk.
ghost use Rattle.std.specs.Prelude.{◌≡◌, List, length, replicate};
ghost use Rattle.std.specs.Iterator.{Drains, IsFinite};
ghost use Rattle.sources.specs.Corrected.{correction_value};
ghost use Rattle.sources.specs.Joins.{joined_at, joined_with};
ghost use Rattle.sources.specs.declared.table.Correction.{Correction};

use crate::table::Correction;
use measures::Measure;
use shapes::Reading;

/// Makes every cell empty.
pub fn empty_cells<M: Measure>(cells: &mut [M])
    ensures { cells.new ≡ replicate (length cells.old) M.empty }
{
    // not `fill`, which clones: a measure does not promise that its clone cannot fail
    let empty = M::empty();
    cells.fill_with(|| empty);
}

// Joins the lift of a reading to one cell. A number that is no reading, and an offset past the last cell, change nothing.
fn join_reading<M: Measure>(cells: &mut [M], offset: u32, reading: u32)
    ensures { cells.new ≡ joined_at M.empty M.op M.lifted cells.old offset reading }
{
    let Some(reading) = Reading::new(reading) else {
        return;
    };
    // not `get_mut`: a proof knows only the length of a slice that was written through it
    let at = offset as usize;
    if at < cells.len() {
        cells[at] = cells[at].join(M::lift(reading));
    }
}

// Joins each correction to its cell, where that lies in the chunk with this number.
pub(crate) fn join_corrections<M: Measure, I: Iterator<Item = Correction> + Drop>(
    corrections: I,
    number: u64,
    cells: &mut [M],
)
    requires can { I.can_next corrections }
    requires ends { IsFinite (I.remaining corrections) }
    ensures { (cs : List Correction) × Drains I.next_gives corrections cs × (cells.new ≡ joined_with M.empty M.op (correction_value M.empty M.op M.lifted cs number) cells.old) }
{
    for correction in corrections {
        if correction.number == number {
            join_reading(cells, correction.offset, correction.reading);
        }
    }
}
