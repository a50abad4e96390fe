// Regions emptied once their release is over.
ghost use Rattle.std.specs.Prelude.{◌≡◌, ◌^◌, ◌<◌, ◌≤◌, length};
ghost use Rattle.shapes.specs.Views.{dims_of};
ghost use Rattle.runs.specs.Emptying.{EmptiedMask, EmptiedOver, IsUnder, next_of_release};
ghost use Rattle.runs.specs.Planned.{adds_of, need_of};

use crate::state::State;
use crate::tree::Tree;
use measures::Measure;

// Whether the group with mask `below` is the one with mask `above`, or stands below it: a parent has a higher mask.
fn is_under(tree: &Tree, below: usize, above: usize) -> bool
    requires { (below < 2 ^ tree.now.n) × (above < 2 ^ tree.now.n) }
    ensures { IsUnder tree.now below above result }
{
    // A loop, as in `Control::next_from`: an iterator over parents would be a type of its own for three short climbs.
    let mut mask = below;
    'climb: while mask < above {
        mask = tree.nodes[mask].up;
    }
    mask == above
}

// Whether the block that is next is of the release of the group with a mask.
fn goes_on(state: &State, mask: usize) -> bool
    requires { mask < 2 ^ length (dims_of state.now.shape) }
    ensures { result ≡ next_of_release (dims_of state.now.shape) (adds_of (dims_of state.now.shape)) mask state.now.control.next }
{
    match state.control.next {
        Some(next) => is_under(&state.control.tree, next, mask),
        None => false,
    }
}

// Empties the region of the group with a mask.
fn empty_mask<M: Measure>(cells: &mut [M], state: &State, mask: usize)
    requires enough { need_of (dims_of state.now.shape) ≤ length cells.old }
    requires below { mask < 2 ^ length (dims_of state.now.shape) }
    ensures { EmptiedMask M.empty (dims_of state.now.shape) mask cells.old cells.new }
{
    state.regions.empty(cells, mask);
}

// Empties the region of each group whose release is over, from the group with mask `from` up: as long as the block that is next is not of its release.
pub(crate) fn empty_over<M: Measure>(cells: &mut [M], state: &State, from: usize)
    requires enough { need_of (dims_of state.now.shape) ≤ length cells.old }
    requires below { from < 2 ^ length (dims_of state.now.shape) }
    ensures { EmptiedOver M.empty (dims_of state.now.shape) from state.now.control.next cells.old cells.new }
{
    // a loop, as above
    let root = state.regions.layout.root();
    let mut mask = from;
    'climb: while !goes_on(state, mask) {
        empty_mask(cells, state, mask);
        if mask == root {
            return;
        }
        mask = state.control.tree.nodes[mask].up;
    }
}
