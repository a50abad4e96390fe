// A direct summary, straight from its definition.
ghost use Rattle.std.specs.Prelude.{◌≡◌, ◌<◌, ◌≤◌, length, drop};
ghost use Rattle.shapes.specs.Arrays.{volume, total_chunks};
ghost use Rattle.shapes.specs.Views.{dims_of};
ghost use Rattle.sources.specs.Meanings.{means};
ghost use Rattle.cubes.specs.Summaries.{big, direct};
ghost use Rattle.summaries.specs.Answers.{brings, summary_answer, cells_left};
ghost use Rattle.summaries.specs.Cells.{group_at};

use crate::cell::SummaryCell;
use crate::refusals::SummaryRefusal;
use measures::Measure;
use sources::{Shaped, Source, empty_cells};

impl SummaryCell {
    // What the chunk with this number brings to the cell: nothing where it can't be read.
    fn sum_of_chunk<M: Measure, S: Source<M>>(
        &self,
        source: &mut S,
        number: u64,
        cells: &mut [M],
    ) -> M
        requires shaped { dims_of self.now.shape ≡ S.Shaped.told source.old }
        requires there { number < total_chunks (S.Shaped.told source.old) }
        requires room { volume (S.Shaped.told source.old) ≤ length cells.old }
        ensures same { means S.Shaped.told S.contents source.new ≡ means S.Shaped.told S.contents source.old }
        ensures sum { result ≡ big M.empty M.op (brings M.empty (means S.Shaped.told S.contents source.old) (group_at self.now) self.now.at number) (volume (S.Shaped.told source.old)) }
        ensures rest { drop (volume (S.Shaped.told source.old)) cells.new ≡ drop (volume (S.Shaped.told source.old)) cells.old }
    {
        let v = self.shape.chunk_cells() as usize;
        match source.fetch(number, cells) {
            Ok(()) => self.sum_where(self.shape.count_radices().digits(number), &cells[..v]),
            Err(_) => M::empty(),
        }
    }

    // What all chunks bring to the cell.
    fn sum_of_chunks<M: Measure, S: Source<M>>(&self, source: &mut S, cells: &mut [M]) -> M
        requires shaped { dims_of self.now.shape ≡ S.Shaped.told source.old }
        requires room { volume (S.Shaped.told source.old) ≤ length cells.old }
        ensures same { means S.Shaped.told S.contents source.new ≡ means S.Shaped.told S.contents source.old }
        ensures sum { result ≡ direct M.empty M.op (means S.Shaped.told S.contents source.old) (group_at self.now) self.now.at }
        ensures rest { drop (volume (S.Shaped.told source.old)) cells.new ≡ drop (volume (S.Shaped.told source.old)) cells.old }
    {
        let mut sum = M::empty();
        for number in 0..self.shape.total_chunks() {
            sum = sum.join(self.sum_of_chunk(source, number, cells));
        }
        sum
    }
}

/// The direct summary of the group with a mask at a cell, given by its coordinates in the kept dimensions: the join of all readable base cells
/// that agree with it. Each chunk is fetched once into the first V cells of the buffer, which end empty.
pub fn direct_summary<M: Measure, S: Source<M>>(
    source: &mut S,
    mask: u32,
    at: [u32; 6],
    cells: &mut [M],
) -> Result<M, SummaryRefusal>
    ensures same { means S.Shaped.told S.contents source.new ≡ means S.Shaped.told S.contents source.old }
    ensures answers { result ≡ summary_answer M.empty M.op (means S.Shaped.told S.contents source.old) mask at (length cells.old) }
    ensures leaves { cells.new ≡ cells_left M.empty M.op (means S.Shaped.told S.contents source.old) mask at cells.old }
{
    let cell = SummaryCell::of(source.shape(), mask, at).ok_or(SummaryRefusal::Outside)?;
    let v = cell.shape.chunk_cells() as usize;
    if cells.len() < v {
        return Err(SummaryRefusal::Short(v));
    }
    let sum = cell.sum_of_chunks(source, cells);
    empty_cells(&mut cells[..v]);
    Ok(sum)
}
