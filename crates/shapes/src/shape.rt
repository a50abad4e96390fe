// The shape of a chunked array. It keeps its limits for as long as it exists, so no later call checks them.
ghost use Rattle.std.specs.Prelude.{◌≡◌, ℕ, ◌^◌, ◌<◌, ◌≤◌, length, get_or, take, slice_index_or};
ghost use Rattle.shapes.specs.Arrays.{volume, extent, total_chunks, none_dim};
ghost use Rattle.shapes.specs.Limits.{Fit};

use crate::dims::Dim;

/// One to six dimensions within the limits, with the numbers that are worked out of them once.
/// A dimension past the last has size 1 and edge 1.
#[derive(Clone, Copy, Debug)]
pub struct Shape {
    // A length beside its array: a shape is copied, which an `ArrayVec` is not, and code works on all six at once.
    pub(crate) n: usize,
    pub(crate) dims: [Dim; 6],
    pub(crate) cells: u32,
    pub(crate) chunks: u64,
    ghost six: { length dims ≡ 6 },
    ghost few: { (1 ≤ n) × (n ≤ 6) },
    ghost each: { (i : ℕ) → i < n → Fit (slice_index_or dims i none_dim) },
    ghost past: { (i : ℕ) → n ≤ i → ((get_or dims i none_dim).size ≡ 1) × ((get_or dims i none_dim).edge ≡ 1) },
    ghost small_chunk: { volume (take n dims) ≤ 16384 },
    ghost small_array: { extent (take n dims) ≤ 2 ^ 34 },
    ghost volumes: { cells ≡ volume (take n dims) },
    ghost totals: { chunks ≡ total_chunks (take n dims) },
}
