// A source over rows of readings.
ghost use Rattle.std.specs.Prelude.{◌≡◌};
ghost use Rattle.shapes.specs.Arrays.{inside, sizes};
ghost use Rattle.shapes.specs.Views.{dims_of};
ghost use Rattle.sources.specs.Rows.{in_range, place, row_correction, row_chunks, rows_answer};

use crate::cells::{empty_cells, join_corrections};
use crate::refusals::{RowRefusal, SourceRefusal};
use crate::source::{Shaped, Source, check_room};
use crate::table::Correction;
use measures::Measure;
use shapes::{Reading, Shape};

/// A reading with the coordinates of its cell. Coordinates past the last dimension are 0.
/// Any numbers make a row: one that is out of range belongs to no cell.
#[derive(Clone, Copy)]
pub struct Row {
    pub at: [u32; 6],
    pub reading: u32,
}

/// A source over the caller's rows. Every chunk can be read, and a cell joins the lifts of all its rows.
#[derive(Clone, Copy)]
pub struct RowTable<'a> {
    shape: Shape,
    rows: &'a [Row],
}

// Whether each coordinate is below its size, and 0 past the last dimension.
fn is_inside(shape: &Shape, at: [u32; 6]) -> bool
    ensures { result ≡ inside (sizes (dims_of shape.now)) at }
{
    let dims = shape.dims();
    dims.iter().zip(at.iter()).all(|(d, x)| *x < d.size)
}

impl Row {
    fn is_in_range(self, shape: &Shape) -> bool
        ensures { result ≡ in_range (dims_of shape.now) self }
    {
        is_inside(shape, self.at) && self.reading <= Reading::LIMIT
    }

    /// The storage number and the offset of the row's cell, or none where the row is out of range.
    pub fn place(self, shape: &Shape) -> Option<(u64, u32)>
        ensures { result ≡ place (dims_of shape.now) self }
    {
        if !self.is_in_range(shape) {
            return None;
        }
        let chunk = shape.storage_number(shape.chunk_of(self.at))?;
        let offset = shape.offset(shape.local_of(self.at))?;
        Some((chunk, offset))
    }

    // The row as a correction of its cell, or none where the row is out of range.
    fn correction(self, shape: &Shape) -> Option<Correction>
        ensures { result ≡ row_correction (dims_of shape.now) self }
    {
        let (number, offset) = self.place(shape)?;
        Some(Correction {
            number,
            offset,
            reading: self.reading,
        })
    }
}

impl<'a> RowTable<'a> {
    /// The source over these rows, in this shape. Nothing is checked: what is out of range belongs to no cell.
    pub fn new(shape: Shape, rows: &'a [Row]) -> RowTable<'a>
        ensures { (result.shape ≡ shape) × (result.rows.now ≡ rows.now) }
    {
        RowTable { shape, rows }
    }

    /// The first row that is out of range, if there is one.
    pub fn check(&self) -> Result<(), RowRefusal>
        ensures { result ≡ rows_answer (dims_of self.now.shape) self.now.rows.now }
    {
        let Self { shape, rows } = *self;
        match rows.iter().position(|row| !row.is_in_range(&shape)) {
            Some(row) => Err(RowRefusal { row }),
            None => Ok(()),
        }
    }
}

impl<'a> Shaped for RowTable<'a> {
    ghost told = { λ s. dims_of s.shape };

    fn shape(&self) -> Shape {
        self.shape
    }
}

impl<'a, M: Measure> Source<M> for RowTable<'a> {
    ghost contents = { λ s. row_chunks M.empty M.op M.lifted (dims_of s.shape) s.rows.now };

    fn fetch(&mut self, number: u64, into: &mut [M]) -> Result<(), SourceRefusal> {
        let Self { shape, rows } = *self;
        let v = check_room(&shape, number, into.len())?;
        let cells = &mut into[..v];
        empty_cells(cells);
        let corrections = rows.iter().filter_map(|row| row.correction(&shape));
        join_corrections(corrections, number, cells);
        Ok(())
    }
}
