// How the tree of groups grows.
ghost use Rattle.std.specs.Prelude.{◌≡◌, ◌+◌, ◌^◌, ◌<◌, ◌≤◌};
ghost use Rattle.shapes.specs.Arrays.{group, radix};
ghost use Rattle.shapes.specs.Views.{dims_of};
ghost use Rattle.plans.specs.Plans.{Order, Parents};
ghost use Rattle.plans.specs.Views.{place_in};
ghost use Rattle.cubes.specs.Scans.{width};
ghost use Rattle.runs.specs.Trees.{Grown, adds_in, node_of};

use crate::tree::{Node, Tree};
use shapes::{Radices, Shape, kept_dimensions};

// The radices of the group with a mask.
pub(crate) fn radices_of(radices: &Radices, mask: u32) -> Radices
    ensures { result.each ≡ radix (group 6 mask) radices.now.each }
{
    radices.kept(kept_dimensions(mask))
}

// The product of the radices at places before a place.
pub(crate) fn width_before(radices: &Radices, places: [u32; 6], place: u32) -> u64
    ensures { result ≡ width (place_in places) radices.now.each place }
{
    let each = radices.each();
    let mut width: u64 = 1;
    for (i, radix) in each.iter().enumerate() {
        let factor = if places[i] < place { *radix } else { 1 };
        width *= u64::from(factor);
    }
    width
}

impl Node {
    // The node of a group whose parent adds a dimension.
    fn of(chunks: &Radices, places: [u32; 6], mask: u32, added: u8) -> Node
        requires { (mask < 64) × (added < 6) × (place_in places added ≤ 6) }
        ensures { result ≡ node_of chunks.now.each places mask added }
    {
        let up = mask + (1 << added);
        let next = places[usize::from(added)] + 1;
        Node {
            up: up as usize,
            period: width_before(&radices_of(chunks, up), places, next),
            share: width_before(&radices_of(chunks, mask), places, next),
        }
    }
}

impl Tree {
    // The mask of the root, the highest.
    pub(crate) fn root(&self) -> usize
        ensures { result + 1 ≡ 2 ^ self.now.n }
    {
        (1 << self.n) - 1
    }

    // The tree of a shape, for an order and a choice of parents by mask.
    pub(crate) fn of(shape: &Shape, places: [u32; 6], adds: [u8; 64]) -> Tree
        requires order { Order (dims_of shape.now) (place_in places) }
        requires parents { Parents (dims_of shape.now) (adds_in adds) }
        ensures { Grown (dims_of shape.now) (place_in places) (adds_in adds) result }
    {
        let n = shape.dimensions();
        let chunks = shape.count_radices();
        let mut nodes = [Node {
            up: 0,
            period: 0,
            share: 0,
        }; 64];
        for mask in 0..shape.group_count() - 1 {
            nodes[mask as usize] = Node::of(&chunks, places, mask, adds[mask as usize]);
        }
        Tree {
            n,
            total: shape.total_chunks(),
            chunks,
            places,
            adds,
            nodes,
        }
    }
}
