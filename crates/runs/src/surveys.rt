// A run driven through all of a source.
ghost use Rattle.std.specs.Prelude.{◌≡◌, ◌≤◌, true, false, length, drop, is_ok};
ghost use Rattle.shapes.specs.Arrays.{volume};
ghost use Rattle.shapes.specs.Views.{dims_of};
ghost use Rattle.sources.specs.Meanings.{means};
ghost use Rattle.runs.specs.Holdings.{moment, planned_emptied, view};
ghost use Rattle.runs.specs.Planned.{need_of};
ghost use Rattle.runs.specs.Surveys.{GoesOn, OneNext, chunk_emptied, lent_answer, survey_answer, survey_counts};

use crate::boxes::empty_cells;
use crate::counts::Counts;
use crate::refusals::RunRefusal;
use crate::run::Run;
use measures::Measure;
use plans::Plan;
use shapes::Shape;
use sources::{Shaped, Source};

// Makes the call that is next: a hand while a block waits, else a take, and a skip where the chunk can't be read.
fn step<M: Measure, S: Source<M>>(run: &mut Run<M>, source: &mut S, buffer: &mut [M])
    requires { OneNext (means S.Shaped.told S.contents source.old) (view (moment run.old)) (length buffer.old) }
    ensures lender { run.new.cells.ghost_name ≡ run.old.cells.ghost_name }
    ensures same { means S.Shaped.told S.contents source.new ≡ means S.Shaped.told S.contents source.old }
    ensures goes { GoesOn M.empty M.op (means S.Shaped.told S.contents source.old) 1 (moment run.old) (moment run.new) }
    ensures rest { drop (volume (dims_of run.old.state.shape)) buffer.new ≡ drop (volume (dims_of run.old.state.shape)) buffer.old }
{
    if run.hand(buffer).is_err() && run.take(source).is_err() {
        let _ = run.skip(source);
    }
}

// Whether so many cells are enough for a run, and so many for its blocks, none of which has more than a chunk.
fn check_lent(shape: &Shape, lent: usize, room: usize) -> Result<(), RunRefusal>
    ensures { result ≡ lent_answer (dims_of shape.now) lent room tt }
{
    Plan::of(shape).check(lent)?;
    let cells = shape.chunk_cells() as usize;
    if room < cells {
        return Err(RunRefusal::ShortBuffer(cells));
    }
    Ok(())
}

// Runs a source of the shape through to the end.
fn run_through<M: Measure, S: Source<M>>(
    shape: Shape,
    source: &mut S,
    cells: &mut [M],
    buffer: &mut [M],
) -> Counts
    requires shaped { dims_of shape ≡ S.Shaped.told source.old }
    requires enough { need_of (dims_of shape) ≤ length cells.old }
    requires room { volume (dims_of shape) ≤ length buffer.old }
    ensures same { means S.Shaped.told S.contents source.new ≡ means S.Shaped.told S.contents source.old }
    ensures counts { result ≡ survey_counts (means S.Shaped.told S.contents source.old) }
    ensures emptied { cells.new ≡ planned_emptied M.empty (dims_of shape) cells.old }
    ensures buffer { buffer.new ≡ chunk_emptied M.empty (dims_of shape) buffer.old }
{
    let mut run = Run::make(shape, cells);
    'turns: while !run.count().done {
        step(&mut run, source, buffer);
    }
    let counts = run.count();
    let _ = run.close();
    empty_cells(buffer, 0, shape.chunk_cells() as usize);
    counts
}

/// Runs a source through to the end over the cells, with a buffer for the blocks, and tells the counts: how many chunks can be read and how many can't, and
/// how many blocks there are.
/// Refused with 17 over fewer cells than the plan needs, and with 23 where the buffer has fewer cells than a chunk. Nothing is fetched then, and the cells and
/// the buffer stay as they were. Else the planned cells, the first of them, end empty, and so do the first V cells of the buffer; the others stay.
pub fn survey<M: Measure, S: Source<M>>(
    source: &mut S,
    cells: &mut [M],
    buffer: &mut [M],
) -> Result<Counts, RunRefusal>
    ensures same { means S.Shaped.told S.contents source.new ≡ means S.Shaped.told S.contents source.old }
    ensures answers { result ≡ survey_answer (means S.Shaped.told S.contents source.old) (length cells.old) (length buffer.old) }
    ensures refused { is_ok result ≡ false → (cells.new ≡ cells.old) × (buffer.new ≡ buffer.old) }
    ensures emptied { is_ok result ≡ true → (cells.new ≡ planned_emptied M.empty (S.Shaped.told source.old) cells.old) × (buffer.new ≡ chunk_emptied M.empty (S.Shaped.told source.old) buffer.old) }
{
    let shape = source.shape();
    check_lent(&shape, cells.len(), buffer.len())?;
    Ok(run_through(shape, source, cells, buffer))
}
