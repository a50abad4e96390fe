// The plan of a scan.
ghost use Rattle.std.specs.Prelude.{ℕ, ◌+◌, ◌^◌, ◌<◌, ◌≤◌, slice_index};

/// The order of the dimensions, the parent of each group, and the cells that they need.
/// By mask, `adds` has the dimension that the group's parent adds, and 0 where there is no parent.
#[derive(Clone, Copy)]
pub struct Plan {
    // A length beside its arrays, as in a shape: a plan is copied, which an `ArrayVec` is not.
    pub(crate) n: usize,
    pub(crate) places: [u32; 6],
    pub(crate) adds: [u8; 64],
    pub(crate) need: u64,
    ghost few: { n ≤ 6 },
    ghost below: { (m : ℕ) → m + 1 < 2 ^ n → slice_index adds m < n },
}
