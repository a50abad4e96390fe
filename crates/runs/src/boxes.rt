// Work on boxes of lent cells, row by row.
ghost use Rattle.std.specs.Prelude.{◌≡◌, ◌+◌, ◌<◌, ◌≤◌, ◌++◌, length, drop, ◌≢◌, slice_index, slice_index_or};
ghost use Rattle.std.proofs.Math.Seq.{paste};
ghost use Rattle.shapes.specs.Arrays.{product};
ghost use Rattle.runs.specs.Boxes.{box_cells, box_joined, row_cells, row_joined, emptied, Within, Disjoint, RowWithin, RowsDisjoint, Leads};

use crate::walks::{Grid, Rows};
use measures::Measure;
use shapes::Radices;

// The `len` cells from `base` on become empty; the rest stays.
pub(crate) fn empty_cells<M: Measure>(cells: &mut [M], base: usize, len: usize)
    requires { base + len ≤ length cells.old }
    ensures { cells.new ≡ emptied M.empty cells.old base len }
{
    sources::empty_cells(&mut cells[base..base + len]);
}

// The dimension along which rows are taken: the first whose radix is not 1, or else the last.
fn row_dimension(radices: [u32; 6]) -> usize
    ensures leads { Leads radices result }
    ensures long { result < 5 → slice_index radices result ≢ 1 }
{
    radices.iter().position(|radix| *radix != 1).unwrap_or(5)
}

// The cell that stands at an index.
fn cell_at<M: Measure>(cells: &[M], at: usize) -> M
    requires { at < length cells.now }
    ensures { result ≡ slice_index_or cells.now at result }
{
    cells[at]
}

// A row is its first cell and its stride, which stay two parameters: a struct of them would be made anew for each row.
// Copies `count` cells in a row to the buffer, from `at` on; the rest of the buffer stays.
fn write_row<M: Measure>(
    cells: &[M],
    count: usize,
    from: usize,
    stride: usize,
    out: &mut [M],
    at: usize,
)
    requires within { RowWithin count from stride (length cells.now) }
    requires room { at + count ≤ length out.old }
    ensures { out.new ≡ paste out.old at (row_cells M.empty cells.now count from stride) count }
{
    let row = &mut out[at..at + count];
    for (l, cell) in row.iter_mut().enumerate() {
        *cell = cell_at(cells, from + l * stride);
    }
}

// Writes the cells of a box by offset; the rest of the buffer stays.
pub(crate) fn write_box<M: Measure>(cells: &[M], edges: Radices, grid: Grid, out: &mut [M])
    requires room { product edges.each ≤ length out.old }
    requires within { Within edges.each grid.start grid.strides (length cells.now) }
    ensures { out.new ≡ box_cells M.empty cells.now edges.each grid.start grid.strides ++ drop (product edges.each) out.old }
{
    let radices = edges.each();
    let along = row_dimension(radices);
    let long = radices[along] as usize;
    // the second grid goes unused
    for row in Rows::of(edges, along, grid, grid) {
        write_row(
            cells,
            long,
            row.from,
            grid.strides[along],
            out,
            row.number * long,
        );
    }
}

// Joins each of `count` cells in a row into that of another row. By index: both rows are of one slice, and strides may be 0.
fn join_row<M: Measure>(
    cells: &mut [M],
    count: usize,
    from: usize,
    from_stride: usize,
    to: usize,
    to_stride: usize,
)
    requires from_within { RowWithin count from from_stride (length cells.old) }
    requires to_within { RowWithin count to to_stride (length cells.old) }
    requires apart { RowsDisjoint count from from_stride to to_stride }
    ensures { cells.new ≡ row_joined M.empty M.op cells.old count from from_stride to to_stride }
{
    for l in 0..count {
        let above = cells[from + l * from_stride];
        let below = cells[to + l * to_stride];
        cells[to + l * to_stride] = below.join(above);
    }
}

// Joins each cell of a box into the cell of another with the same digits.
pub(crate) fn join_box<M: Measure>(cells: &mut [M], edges: Radices, from: Grid, to: Grid)
    requires from_within { Within edges.each from.start from.strides (length cells.old) }
    requires to_within { Within edges.each to.start to.strides (length cells.old) }
    requires apart { Disjoint edges.each from.start from.strides to.start to.strides }
    ensures { cells.new ≡ box_joined M.empty M.op cells.old edges.each from.start from.strides to.start to.strides }
{
    let radices = edges.each();
    let along = row_dimension(radices);
    let long = radices[along] as usize;
    for row in Rows::of(edges, along, from, to) {
        join_row(
            cells,
            long,
            row.from,
            from.strides[along],
            row.to,
            to.strides[along],
        );
    }
}
