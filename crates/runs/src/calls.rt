// The calls of a run.
ghost use Rattle.std.specs.Prelude.{◌≡◌, List};
ghost use Rattle.shapes.specs.Views.{dims_of};
ghost use Rattle.plans.specs.Plans.{Least};
ghost use Rattle.sources.specs.Meanings.{Meaning, means};
ghost use Rattle.runs.specs.Answers.{close_answer, count_answer};
ghost use Rattle.runs.specs.Calls.{Hands, Makes, Skips, Takes};
ghost use Rattle.runs.specs.Holdings.{dims_in, first_emptied, moment, planned_emptied, view};
ghost use Rattle.runs.specs.Lives.{Event, History, Kept};

use crate::boxes::empty_cells;
use crate::counts::{Closed, Counts};
use crate::handing::hand_block;
use crate::refusals::RunRefusal;
use crate::run::Run;
use crate::state::State;
use crate::taking::{skip_chunk, take_chunk};
use measures::Measure;
use shapes::Shape;
use sources::Source;

// Empties the first cells, so many; where there are fewer, none is touched.
fn empty_first<M: Measure>(cells: &mut [M], count: u64)
    ensures { cells.new ≡ first_emptied M.empty count cells.old }
{
    if count <= cells.len() as u64 {
        empty_cells(cells, 0, count as usize);
    }
}

impl<'a, M: Measure> Run<'a, M> {
    /// A run over the cells, for sources of this shape. The planned cells, the first of them, become empty; the others are never touched.
    /// Over fewer cells than the plan needs none is touched, and take, skip and hand will be refused with 17: `Plan::check` tells beforehand.
    pub fn make(shape: Shape, cells: &'a mut [M]) -> Run<'a, M>
        ensures lender { result.cells.ghost_name ≡ cells.entry.ghost_name }
        ensures makes { Makes M.empty M.op (dims_of shape) cells.old (moment result) }
    {
        let state = State::new(shape);
        empty_first(cells, state.plan.need());
        Run { cells, state }
    }

    /// Fetches the next chunk. Refused with 17, 18, 19, 20, 16.
    pub fn take<S: Source<M>>(&mut self, source: &mut S) -> Result<(), RunRefusal>
        ensures lender { self.new.cells.ghost_name ≡ self.old.cells.ghost_name }
        ensures same { means S.Shaped.told S.contents source.new ≡ means S.Shaped.told S.contents source.old }
        ensures takes { Takes M.empty M.op (means S.Shaped.told S.contents source.old) (moment self.old) result (moment self.new) }
    {
        take_chunk(&mut self.state, self.cells, source)
    }

    /// Passes over the next chunk if the source can't read it: it counts as empty. Refused with 17, 18, 19, 20, 21.
    pub fn skip<S: Source<M>>(&mut self, source: &mut S) -> Result<(), RunRefusal>
        ensures lender { self.new.cells.ghost_name ≡ self.old.cells.ghost_name }
        ensures same { means S.Shaped.told S.contents source.new ≡ means S.Shaped.told S.contents source.old }
        ensures skips { Skips M.empty M.op (means S.Shaped.told S.contents source.old) (moment self.old) result (moment self.new) }
    {
        skip_chunk(&mut self.state, self.cells, source)
    }

    /// Writes the next block to the buffer, by offset, and answers its mask, its block number and how many cells it has; the rest of the buffer stays.
    /// Refused with 17, 22, 23.
    pub fn hand(&mut self, buffer: &mut [M]) -> Result<(u32, u64, usize), RunRefusal>
        ensures lender { self.new.cells.ghost_name ≡ self.old.cells.ghost_name }
        ensures hands { Hands M.empty M.op (moment self.old) buffer.old result buffer.new (moment self.new) }
    {
        hand_block(&mut self.state, self.cells, buffer)
    }

    /// How many chunks were taken and skipped and how many blocks handed out, and whether the run is done.
    pub fn count(&self) -> Counts
        ensures counts { result ≡ count_answer (view (moment self.now)) }
        ensures least { Least (dims_in (moment self.now)) }
        ensures life { (μ : Meaning M) (es : List (Event M)) → History M.empty M.op μ es (moment self.now) → Kept M.empty M.op μ es (moment self.now) result }
    {
        self.state.counts()
    }

    /// Ends the run: its planned cells become empty. Over fewer cells than the need none is touched.
    pub fn close(self) -> Closed
        ensures closed { result ≡ close_answer (view (moment self.entry)) }
        ensures emptied { self.exit.0.now ≡ planned_emptied M.empty (dims_in (moment self.entry)) self.entry.cells.now }
    {
        let Run { cells, state } = self;
        empty_first(cells, state.plan.need());
        state.closed()
    }
}
