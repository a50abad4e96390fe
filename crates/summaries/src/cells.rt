// The cells of a chunk that agree with a summary cell.
ghost use Rattle.std.specs.Prelude.{◌≡◌, length, if◌then◌else◌, slice_index_or};
ghost use Rattle.shapes.specs.Arrays.{edges, digits};
ghost use Rattle.shapes.specs.Views.{dims_of, six};
ghost use Rattle.cubes.specs.Summaries.{big};
ghost use Rattle.summaries.specs.Cells.{agrees_at};

use crate::cell::SummaryCell;
use measures::Measure;

impl SummaryCell {
    // Whether the cell at local coordinates of a chunk agrees with this one.
    fn agrees(&self, chunk: [u32; 6], local: [u32; 6]) -> bool
        ensures { result ≡ agrees_at self.now chunk local }
    {
        let dims = self.shape.dims();
        let base = chunk.iter().zip(&dims).zip(&local);
        self.kept.iter().zip(&self.at).zip(base).all(|((kept, x), ((c, d), l))| {
            !*kept || u64::from(*x) == u64::from(*c) * u64::from(d.edge) + u64::from(*l)
        })
    }

    // The join of the cells of a chunk that agree with this one.
    pub(crate) fn sum_where<M: Measure>(&self, chunk: [u32; 6], cells: &[M]) -> M
        ensures { result ≡ big M.empty M.op (λ o. (if agrees_at self.now chunk (digits (six 1 (edges (dims_of self.now.shape))) o) then slice_index_or cells.now o M.empty else M.empty)) (length cells.now) }
    {
        let edges = self.shape.edge_radices();
        let mut sum = M::empty();
        for (offset, value) in cells.iter().enumerate() {
            if self.agrees(chunk, edges.digits(offset as u64)) {
                sum = sum.join(*value);
            }
        }
        sum
    }
}
