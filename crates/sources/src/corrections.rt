// A layer of corrections over any source.
ghost use Rattle.std.specs.Prelude.{◌≡◌, []};
ghost use Rattle.sources.specs.Corrected.{held_in, has_cell, corrected, add_answer, held_after};
ghost use Rattle.shapes.specs.Views.{dims_of};

use crate::cells::join_corrections;
use crate::refusals::{CorrectionRefusal, SourceRefusal};
use crate::source::{Shaped, Source};
use crate::table::{Correction, Corrections};
use arrayvec::ArrayVec;
use measures::Measure;
use shapes::{Reading, Shape};

impl Correction {
    // Whether there is such a chunk and such an offset, and the reading is one.
    fn is_in_range(self, shape: &Shape) -> bool
        ensures { result ≡ has_cell (dims_of shape.now) self }
    {
        self.number < shape.total_chunks()
            && self.offset < shape.chunk_cells()
            && self.reading <= Reading::LIMIT
    }
}

impl<S> Corrections<S> {
    /// A layer over a source, with no correction yet.
    pub fn new(below: S) -> Corrections<S>
        ensures { (result.below ≡ below) × (held_in result.table ≡ []) }
    {
        Corrections {
            below,
            table: ArrayVec::new(),
        }
    }
}

impl<S: Shaped> Corrections<S> {
    /// One correction more. Where it is refused, the table stays as it was.
    pub fn add(&mut self, correction: Correction) -> Result<(), CorrectionRefusal>
        ensures answers { result ≡ add_answer (S.told self.old.below) (held_in self.old.table) correction }
        ensures table { held_in self.new.table ≡ held_after (S.told self.old.below) (held_in self.old.table) correction }
        ensures below { self.new.below ≡ self.old.below }
    {
        if !correction.is_in_range(&self.below.shape()) {
            return Err(CorrectionRefusal::OutOfRange);
        }
        let pushed = self.table.try_push(correction);
        pushed.map_err(|_| CorrectionRefusal::Full)
    }
}

impl<S: Shaped> Shaped for Corrections<S> {
    ghost told = { λ s. S.Shaped.told s.below };

    fn shape(&self) -> Shape {
        self.below.shape()
    }
}

impl<M: Measure, S: Source<M>> Source<M> for Corrections<S> {
    ghost contents = { λ s k. corrected M.empty M.op M.lifted (held_in s.table) k (S.Source.contents s.below k) };

    fn fetch(&mut self, number: u64, into: &mut [M]) -> Result<(), SourceRefusal> {
        self.below.fetch(number, into)?;
        let v = self.below.shape().chunk_cells() as usize;
        join_corrections(self.table.iter().copied(), number, &mut into[..v]);
        Ok(())
    }
}
