// Making a plan.
ghost use Rattle.std.specs.Prelude.{◌≡◌, ℕ, ◌+◌, ◌-◌, ◌^◌, ◌<◌, ◌≤◌, map, length, slice_index, if◌then◌else◌};
ghost use Rattle.shapes.specs.Arrays.{volume, extent, numbers, group};
ghost use Rattle.shapes.specs.Views.{dims_of, six};
ghost use Rattle.plans.specs.Plans.{Edged, cells, need, plan_place, plan_adds, plan_need, Bounded, Least};
ghost use Rattle.plans.specs.Views.{Planned};
ghost use Rattle.std.proofs.Props.{props};

use crate::plan::Plan;
use shapes::{Dim, Shape, kept_dimensions};
use std::array;

// How much a dimension grows where all of it is kept in place of one chunk's edge, which is no longer.
fn slack(d: &Dim) -> u32
    ensures { result ≡ d.now.size - d.now.edge }
{
    d.size.saturating_sub(d.edge)
}

// The place of dimension i: after each of less slack, and each of equal slack and lower number.
fn place_of(dims: &[Dim], i: usize) -> u32
    requires few { length dims.now ≤ 6 }
    requires inside { i < length dims.now }
    ensures { result ≡ plan_place dims.now i }
{
    let own = (slack(&dims[i]), i);
    let before = dims
        .iter()
        .enumerate()
        .filter(|(j, d)| (slack(d), *j) < own)
        .count();
    1 + before as u32
}

// The places of the dimensions; 0 past the last.
fn places_of(dims: &[Dim]) -> [u32; 6]
    requires few { length dims.now ≤ 6 }
    ensures { result ≡ six 0 (map (plan_place dims.now) (numbers dims.now)) }
{
    array::from_fn(|i| if i < dims.len() { place_of(dims, i) } else { 0 })
}

// What a dimension brings to the cells of a group.
fn share_of(d: &Dim, kept: bool, before: bool) -> u64
    ensures { result ≡ (if kept then (if before then d.now.size else d.now.edge) else 1) }
{
    match (kept, before) {
        (false, _) => 1,
        (true, true) => u64::from(d.size),
        (true, false) => u64::from(d.edge),
    }
}

// The dimensions of a shape and their places in the plan.
#[derive(Clone, Copy)]
struct Draft<'a> {
    dims: &'a [Dim],
    places: &'a [u32],
    ghost edged: { Edged dims.now } by { Prim.hlevel props },
    ghost few: { length dims.now ≤ 6 },
    ghost small: { extent dims.now ≤ 2 ^ 34 },
    ghost placed: { places.now ≡ map (plan_place dims.now) (numbers dims.now) },
}

impl Draft<'_> {
    // The number of the groups but the root, which is the root's mask.
    fn others(&self) -> u32
        ensures { result ≡ 2 ^ length self.now.dims.now - 1 }
    {
        (1 << self.dims.len()) - 1
    }

    // Of the dimensions that the group with this mask lacks, the one of earliest place.
    fn earliest_missing(&self, mask: u32) -> usize
        requires other { mask + 1 < 2 ^ length self.now.dims.now }
        ensures earliest { result ≡ plan_adds self.now.dims.now (group (length self.now.dims.now) mask) }
        ensures inside { result < length self.now.dims.now }
    {
        let kept = kept_dimensions(mask);
        let (found, _) = self
            .places
            .iter()
            .zip(&kept)
            .enumerate()
            .fold((0, u32::MAX), |best, (i, (place, kept))| {
                if !*kept && *place < best.1 {
                    (i, *place)
                } else {
                    best
                }
            });
        found
    }

    // By mask, the dimension that each group's parent adds; 0 for the root and past it.
    fn adds(&self) -> [u8; 64]
        ensures others { (m : ℕ) → m + 1 < 2 ^ length self.now.dims.now → slice_index result m ≡ plan_adds self.now.dims.now (group (length self.now.dims.now) m) }
        ensures past { (m : ℕ) → 2 ^ length self.now.dims.now ≤ m + 1 → slice_index result m ≡ 0 }
    {
        let mut adds = [0; 64];
        let others = &mut adds[..self.others() as usize];
        for (mask, added) in others.iter_mut().enumerate() {
            *added = self.earliest_missing(mask as u32) as u8;
        }
        adds
    }

    // The cells of the group with this mask, by the dimensions that the groups' parents add.
    fn group_cells(&self, mask: u32, adds: &[u8; 64]) -> u64
        requires other { mask + 1 < 2 ^ length self.now.dims.now }
        requires adds { (m : ℕ) → m + 1 < 2 ^ length self.now.dims.now → slice_index adds.now m ≡ plan_adds self.now.dims.now (group (length self.now.dims.now) m) }
        ensures { result ≡ cells self.now.dims.now (plan_place self.now.dims.now) (group (length self.now.dims.now) mask) (plan_adds self.now.dims.now (group (length self.now.dims.now) mask)) }
    {
        let added = usize::from(adds[mask as usize]);
        let first = self.places[added];
        let kept = kept_dimensions(mask);
        self.dims
            .iter()
            .zip(self.places)
            .zip(&kept)
            .map(|((d, place), kept)| share_of(d, *kept, *place < first))
            .product()
    }

    // The cells of a chunk for the root, and those of every other group, by the dimensions that their parents add.
    fn need(&self, chunk: u32, adds: &[u8; 64]) -> u64
        requires chunk { chunk ≡ volume self.now.dims.now }
        requires adds { (m : ℕ) → m + 1 < 2 ^ length self.now.dims.now → slice_index adds.now m ≡ plan_adds self.now.dims.now (group (length self.now.dims.now) m) }
        ensures { result ≡ plan_need self.now.dims.now }
    {
        let cells: u64 = (0..self.others())
            .map(|mask| self.group_cells(mask, adds))
            .sum();
        u64::from(chunk) + cells
    }
}

impl Plan {
    /// The plan of a shape: no order of its dimensions with any choice of parents needs fewer cells.
    pub fn of(shape: &Shape) -> Plan
        ensures planned { Planned (dims_of shape.now) result }
        ensures least { Least (dims_of shape.now) }
        ensures bounded { Bounded (dims_of shape.now) }
    {
        let n = shape.dimensions();
        let dims = shape.dims();
        let places = places_of(&dims[..n]);
        let draft = Draft {
            dims: &dims[..n],
            places: &places[..n],
        };
        let adds = draft.adds();
        let need = draft.need(shape.chunk_cells(), &adds);
        Plan {
            n,
            places,
            adds,
            need,
        }
    }
}
