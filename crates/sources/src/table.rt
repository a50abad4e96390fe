// A table of corrections, and a source with such a table over it.
ghost use Rattle.std.specs.Prelude.{◌≤◌, length};

use arrayvec::ArrayVec;

// `Default` is what an `ArrayVec` of them is made with.
/// A reading that is joined to the cell at an offset of a chunk, given by its storage number.
#[derive(Clone, Copy, PartialEq, Eq, Debug, Default)]
pub struct Correction {
    pub number: u64,
    pub offset: u32,
    pub reading: u32,
}

/// A source with at most 32 corrections over it, in the order in which they were added.
#[derive(Drop)]
pub struct Corrections<S> {
    pub(crate) below: S,
    pub(crate) table: ArrayVec<Correction, 32>,
    ghost few: { length table.items ≤ 32 },
}
