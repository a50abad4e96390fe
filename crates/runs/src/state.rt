// What a run keeps beside its cells.
ghost use Rattle.std.specs.Prelude.{◌≡◌, ℕ, ◌+◌, ◌^◌, ◌<◌, length, slice_index};
ghost use Rattle.std.proofs.Props.{props};
ghost use Rattle.shapes.specs.Arrays.{group};
ghost use Rattle.shapes.specs.Views.{dims_of};
ghost use Rattle.plans.specs.Views.{Planned};
ghost use Rattle.runs.specs.Controls.{Controls};
ghost use Rattle.runs.specs.Planned.{adds_of, places_of};

use crate::bases::Regions;
use crate::control::Control;
use plans::Plan;
use shapes::Shape;

// The shape and its plan; where the regions of the groups stand; how many chunks were taken and skipped; and what comes next.
// The facts: the regions are laid out for the shape in the plan's order and with its parents, and the control is one of a scan in that order with those parents.
// Nothing is said of the cells, which are the caller's.
#[derive(Clone, Copy)]
pub(crate) struct State {
    pub(crate) shape: Shape,
    pub(crate) plan: Plan,
    pub(crate) regions: Regions,
    pub(crate) taken: u64,
    pub(crate) skipped: u64,
    pub(crate) control: Control,
    ghost planned: { Planned (dims_of shape) plan },
    ghost passes: { taken + skipped ≡ control.passed },
    ghost laid: { regions.layout.shape ≡ shape },
    ghost placed: { (i : ℕ) → i < length (dims_of shape) → slice_index regions.layout.places i ≡ places_of (dims_of shape) i },
    ghost adding: { (m : ℕ) → m + 1 < 2 ^ length (dims_of shape) → slice_index regions.layout.adds m ≡ adds_of (dims_of shape) (group (length (dims_of shape)) m) },
    ghost controls: { Controls (dims_of shape) (places_of (dims_of shape)) (adds_of (dims_of shape)) control } by { Prim.hlevel props },
}
