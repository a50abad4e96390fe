// How the regions of the groups are laid out, and one of them.
ghost use Rattle.std.specs.Prelude.{◌≡◌, ℕ, ◌+◌, ◌^◌, ◌<◌, length, slice_index};
ghost use Rattle.shapes.specs.Views.{dims_of};

use shapes::Shape;

// The shape, the place of each dimension, and by mask the dimension that the parent of a group has more.
#[derive(Clone, Copy)]
pub(crate) struct Layout {
    pub(crate) shape: Shape,
    pub(crate) places: [u32; 6],
    pub(crate) adds: [u8; 64],
    ghost all_adds: { length adds ≡ 64 },
    ghost added: { (m : ℕ) → m + 1 < 2 ^ length (dims_of shape) → slice_index adds m < 6 },
}

// The region of a group: its first cell, the dimensions that the group keeps, and the place of the one that its parent adds (0 for the root).
#[derive(Clone, Copy)]
pub(crate) struct Region {
    pub(crate) base: usize,
    pub(crate) kept: [bool; 6],
    pub(crate) lacked: u32,
}
