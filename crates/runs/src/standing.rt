// The regions of a run: where each stands, blocks joined into the regions of children, and regions emptied.
// Masks, orders and parents are plain values, as in `regions`.
ghost use Rattle.std.specs.Prelude.{◌≡◌, ℕ, ◌+◌, ◌-◌, ◌^◌, ◌<◌, ◌≤◌, true, length, slice_index};
ghost use Rattle.shapes.specs.Views.{dims_of};
ghost use Rattle.runs.specs.Boxes.{emptied};
ghost use Rattle.runs.specs.Grids.{Inside, Joinable, block_edges, cells_in, child_at, top};
ghost use Rattle.runs.specs.Standing.{all_joined, region_in};

use crate::bases::Regions;
use crate::boxes::empty_cells;
use crate::layouts::{Layout, Region};
use measures::Measure;
use shapes::Shape;

impl Regions {
    // The regions of a shape, for an order and a choice of parents by mask.
    pub(crate) fn of(shape: &Shape, places: [u32; 6], adds: [u8; 64]) -> Regions
        requires { (m : ℕ) → m + 1 < 2 ^ length (dims_of shape.now) → slice_index adds m < 6 }
        ensures shaped { result.layout.shape ≡ shape.now }
        ensures placed { result.layout.places ≡ places }
        ensures adding { result.layout.adds ≡ adds }
    {
        let layout = Layout::of(shape, places, adds);
        Regions {
            layout,
            bases: layout.bases(),
        }
    }

    // The region of the group with a mask.
    pub(crate) fn region(&self, mask: usize) -> Region
        requires { mask ≤ top self.now.layout }
        ensures { result ≡ region_in self.now mask }
    {
        self.layout.region(mask, self.bases[mask])
    }

    // Joins a block of the group with a mask into the region of each of its children.
    pub(crate) fn join_children<M: Measure>(&self, cells: &mut [M], mask: usize, block: [u32; 6])
        requires below { mask ≤ top self.now.layout }
        requires inside { Inside self.now.layout (region_in self.now mask) (block_edges self.now.layout (region_in self.now mask)) block (length cells.old) }
        requires joinable { (e : ℕ) → e < 6 → child_at self.now.layout.adds mask e ≡ true → Joinable self.now.layout (region_in self.now mask) (region_in self.now (mask - 2 ^ e)) block (length cells.old) }
        ensures { cells.new ≡ all_joined M.empty M.op cells.old self.now mask block 6 }
    {
        let parent = self.region(mask);
        for e in 0..6 {
            if let Some(child) = self.layout.child(mask, e) {
                let child = self.region(child);
                self.layout.join_block(cells, parent, child, block);
            }
        }
    }

    // Empties the region of the group with a mask.
    pub(crate) fn empty<M: Measure>(&self, cells: &mut [M], mask: usize)
        requires below { mask ≤ top self.now.layout }
        requires room { (region_in self.now mask).base + cells_in self.now.layout (region_in self.now mask) ≤ length cells.old }
        ensures { cells.new ≡ emptied M.empty cells.old (region_in self.now mask).base (cells_in self.now.layout (region_in self.now mask)) }
    {
        let region = self.region(mask);
        empty_cells(cells, region.base, self.layout.region_len(region));
    }
}
