// A chunk taken or skipped.
ghost use Rattle.std.specs.Prelude.{◌≡◌, ◌+◌};
ghost use Rattle.sources.specs.Meanings.{means};
ghost use Rattle.runs.specs.Holdings.{moment_of};
ghost use Rattle.runs.specs.Calls.{Skips, Takes};

use crate::blocks::fill_root;
use crate::boxes::empty_cells;
use crate::refusals::RunRefusal;
use crate::state::State;
use measures::Measure;
use sources::{Shaped, Source, SourceRefusal};

// Fetches the chunk that is next into the root's region. Where it can't be read, the region stays empty.
// The match stays: its refusal tells a scan number, which no `From` of the source's knows, and a `map_err` would hold the last two arms just the same.
pub(crate) fn take_chunk<M: Measure, S: Source<M>>(
    state: &mut State,
    cells: &mut [M],
    source: &mut S,
) -> Result<(), RunRefusal>
    ensures same { means S.Shaped.told S.contents source.new ≡ means S.Shaped.told S.contents source.old }
    ensures takes { Takes M.empty M.op (means S.Shaped.told S.contents source.old) (moment_of state.old cells.old) result (moment_of state.new cells.new) }
{
    let shape = source.shape();
    let number = state.chunk_to_pass(cells.len(), &shape)?;
    match fill_root(cells, source, number) {
        Ok(()) => {
            state.count_taken();
            Ok(())
        }
        Err(
            SourceRefusal::Unreadable {
                chunk,
                entry,
                cause,
            },
        ) => Err(RunRefusal::Unreadable {
            scan: state.control.passed,
            chunk,
            entry,
            cause,
        }),
        Err(_) => unreachable(),
    }
}

// Passes over the chunk that is next if it can't be read: it counts as empty. One that can be read is taken out of the root's region again.
pub(crate) fn skip_chunk<M: Measure, S: Source<M>>(
    state: &mut State,
    cells: &mut [M],
    source: &mut S,
) -> Result<(), RunRefusal>
    ensures same { means S.Shaped.told S.contents source.new ≡ means S.Shaped.told S.contents source.old }
    ensures skips { Skips M.empty M.op (means S.Shaped.told S.contents source.old) (moment_of state.old cells.old) result (moment_of state.new cells.new) }
{
    let shape = source.shape();
    let number = state.chunk_to_pass(cells.len(), &shape)?;
    if fill_root(cells, source, number).is_err() {
        state.count_skipped();
        return Ok(());
    }
    empty_cells(cells, 0, shape.chunk_cells() as usize);
    Err(RunRefusal::Readable)
}
