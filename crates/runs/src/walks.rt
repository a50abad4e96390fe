// The rows of a box of cells, by rising number, and where each begins in two grids.
ghost use Rattle.std.specs.Prelude.{◌≡◌, ℕ, ◌+◌, ◌-◌, ◌^◌, ◌<◌, ◌≤◌, length, slice_index, slice_set, MatchOption};
ghost use Rattle.std.specs.Iterator.{at_most};
ghost use Rattle.shapes.specs.Arrays.{Below, digits, product};
ghost use Rattle.runs.specs.Boxes.{Within, dot, next_digits};

use shapes::Radices;

// A box of cells: where its first cell stands, and how far apart two neighbours stand in each dimension.
#[derive(Clone, Copy)]
pub(crate) struct Grid {
    pub(crate) start: usize,
    pub(crate) strides: [usize; 6],
}

// Digits, and where the cells with them stand in two grids.
#[derive(Clone, Copy)]
pub(crate) struct Walk {
    pub(crate) at: [u32; 6],
    pub(crate) from: usize,
    pub(crate) to: usize,
}

// A row: its number, and where its first cell stands in each of the two grids.
#[derive(Clone, Copy)]
pub(crate) struct Row {
    pub(crate) number: usize,
    pub(crate) from: usize,
    pub(crate) to: usize,
}

// The rows that are left. The radices are those of the box, but 1 along the rows, so that their digits are those of the rows' first cells.
#[derive(Drop)]
pub(crate) struct Rows {
    pub(crate) radices: [u32; 6],
    pub(crate) from: Grid,
    pub(crate) to: Grid,
    pub(crate) height: usize,
    pub(crate) number: usize,
    pub(crate) walk: Walk,
    ghost six: { (length radices ≡ 6) × (length from.strides ≡ 6) × (length to.strides ≡ 6) },
    ghost some: { (i : ℕ) → i < 6 → 1 ≤ slice_index radices i },
    ghost from_within: { Within radices from.start from.strides (2 ^ 64) },
    ghost to_within: { Within radices to.start to.strides (2 ^ 64) },
    ghost some_left: { number ≤ height },
    ghost at_digits: { walk.at ≡ digits radices number },
    ghost from_place: { walk.from ≡ from.start + dot from.strides (digits radices number) },
    ghost to_place: { walk.to ≡ to.start + dot to.strides (digits radices number) },
}

impl Walk {
    // To the next digits, the first changing fastest; after the last come the first.
    fn advance(&mut self, radices: &[u32; 6], from: &[usize; 6], to: &[usize; 6])
        requires below { Below radices.now self.old.at }
        requires reached { (dot from.now self.old.at ≤ self.old.from) × (dot to.now self.old.at ≤ self.old.to) }
        requires fits { (self.old.from + dot from.now (next_digits radices.now self.old.at) < 2 ^ 64 + dot from.now self.old.at) × (self.old.to + dot to.now (next_digits radices.now self.old.at) < 2 ^ 64 + dot to.now self.old.at) }
        ensures at { self.new.at ≡ next_digits radices.now self.old.at }
        ensures from { self.new.from + dot from.now self.old.at ≡ self.old.from + dot from.now (next_digits radices.now self.old.at) }
        ensures to { self.new.to + dot to.now self.old.at ≡ self.old.to + dot to.now (next_digits radices.now self.old.at) }
    {
        // By number: a zip of four arrays, one of them written, is no plainer.
        for i in 0..6 {
            let radix = radices[i];
            let digit = self.at[i];
            if digit + 1 < radix {
                self.at[i] = digit + 1;
                self.from += from[i];
                self.to += to[i];
                return;
            }
            self.at[i] = 0;
            self.from -= digit as usize * from[i];
            self.to -= digit as usize * to[i];
        }
    }
}

impl Rows {
    // The rows of a box along a dimension, from the first on.
    pub(crate) fn of(edges: Radices, along: usize, from: Grid, to: Grid) -> Rows
        requires along { along < 6 }
        requires from_within { Within edges.each from.start from.strides (2 ^ 64) }
        requires to_within { Within edges.each to.start to.strides (2 ^ 64) }
        ensures grids { (result.from ≡ from) × (result.to ≡ to) }
        ensures rows { (result.radices ≡ slice_set edges.each along 1) × (result.height ≡ product result.radices) × (result.number ≡ 0) }
    {
        let mut radices = edges.each();
        let height = edges.product() as usize / radices[along] as usize;
        radices[along] = 1;
        Rows {
            radices,
            from,
            to,
            height,
            number: 0,
            walk: Walk {
                at: [0; 6],
                from: from.start,
                to: to.start,
            },
        }
    }
}

impl Iterator for Rows {
    type Item = Row;

    ghost next_gives = { λ s r t. MatchOption r (s.number ≡ s.height) (λ x. (x.number ≡ s.number) × (x.from ≡ s.walk.from) × (x.to ≡ s.walk.to) × (t.radices ≡ s.radices) × (t.from ≡ s.from) × (t.to ≡ s.to) × (t.height ≡ s.height) × (t.number ≡ s.number + 1)) };

    ghost remaining = { λ s. at_most (s.height - s.number) };

    fn next(&mut self) -> Option<Row> {
        if self.number == self.height {
            return None;
        }
        let row = Row {
            number: self.number,
            from: self.walk.from,
            to: self.walk.to,
        };
        self.walk
            .advance(&self.radices, &self.from.strides, &self.to.strides);
        self.number += 1;
        Some(row)
    }
}
