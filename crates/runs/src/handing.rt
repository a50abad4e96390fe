// A block handed out: written to the caller's buffer, which changes nothing of the run; then joined into its children's regions, and the run goes on.
// That the cells are enough is asked of each function that works on them: they are lent as `&mut`, and a ghost field beside one gets no proof.
// The public call answers a tuple, as it did; inside, a block is a `NextBlock`.
ghost use Rattle.std.specs.Prelude.{◌≡◌, ◌≤◌, ◌++◌, length, drop};
ghost use Rattle.shapes.specs.Views.{dims_of};
ghost use Rattle.runs.specs.Calls.{Hands};
ghost use Rattle.runs.specs.Emptying.{PassesBlock, block_in};
ghost use Rattle.runs.specs.Holdings.{moment_of};
ghost use Rattle.runs.specs.Planned.{block_after, block_size, need_of};
ghost use Rattle.runs.specs.Steps.{IsNextBlock};

use crate::emptying::empty_over;
use crate::refusals::RunRefusal;
use crate::state::State;
use crate::steps::NextBlock;
use measures::Measure;

// Writes the cells of the block that is next, by offset; the rest of the buffer stays.
fn write_next<M: Measure>(cells: &[M], state: &State, block: NextBlock, out: &mut [M])
    requires enough { need_of (dims_of state.now.shape) ≤ length cells.now }
    requires next { IsNextBlock state.now block }
    requires room { block_size (dims_of state.now.shape) (block_after (dims_of state.now.shape) state.now.control.handed) ≤ length out.old }
    ensures { out.new ≡ block_in M.empty cells.now state.now block ++ drop (block_size (dims_of state.now.shape) (block_after (dims_of state.now.shape) state.now.control.handed)) out.old }
{
    let region = state.regions.region(block.mask);
    state
        .regions
        .layout
        .write_block(cells, region, block.at, out);
}

// Joins the block that is next into the regions of its children, goes on to what comes next, and empties the regions whose release is over.
fn pass_block<M: Measure>(cells: &mut [M], state: &mut State, block: NextBlock)
    requires enough { need_of (dims_of state.old.shape) ≤ length cells.old }
    requires next { IsNextBlock state.old block }
    ensures { PassesBlock M.empty M.op (moment_of state.old cells.old) block (moment_of state.new cells.new) }
{
    state.regions.join_children(cells, block.mask, block.at);
    state.count_handed();
    empty_over(cells, state, block.mask);
}

// Hands the block that is next out.
pub(crate) fn hand_block<M: Measure>(
    state: &mut State,
    cells: &mut [M],
    buffer: &mut [M],
) -> Result<(u32, u64, usize), RunRefusal>
    ensures { Hands M.empty M.op (moment_of state.old cells.old) buffer.old result buffer.new (moment_of state.new cells.new) }
{
    let block = state.block_to_hand(cells.len(), buffer.len())?;
    write_next(cells, state, block, buffer);
    pass_block(cells, state, block);
    Ok((block.mask as u32, block.number, block.cells))
}
