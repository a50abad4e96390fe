// The regions of a layout: which they are, how many cells each has, and the grid of a block.
// What a dimension's number, a mask or the parents have to keep to is asked of the functions that take one. A type for a mask would carry its shape, and each
// parent and each turn of a loop would make one anew.
ghost use Rattle.std.specs.Prelude.{◌≡◌, ℕ, ◌+◌, ◌-◌, ◌^◌, ◌<◌, ◌≤◌, false, None, Some, if◌then◌else◌, length, slice_index, slice_index_or};
ghost use Rattle.shapes.specs.Arrays.{product, radix, volume};
ghost use Rattle.shapes.specs.Views.{dims_of};
ghost use Rattle.runs.specs.Grids.{Bases, block_edges, cells_below, cells_in, child_at, first_at, lacked_at, radix_at, region_at, start_of, stride_at, strides_in, top};

use crate::layouts::{Layout, Region};
use crate::walks::Grid;
use shapes::{Radices, Shape, kept_dimensions};

impl Region {
    // How far apart two neighbours in a dimension stand, with so many cells before it.
    fn stride(&self, i: usize, before: usize) -> usize
        requires { i < 6 }
        ensures { result ≡ (if slice_index_or self.now.kept i false then before else 0) }
    {
        if self.kept[i] { before } else { 0 }
    }
}

impl Layout {
    // The layout of a shape, for an order and a choice of parents by mask.
    pub(crate) fn of(shape: &Shape, places: [u32; 6], adds: [u8; 64]) -> Layout
        requires { (m : ℕ) → m + 1 < 2 ^ length (dims_of shape.now) → slice_index adds m < 6 }
        ensures shaped { result.shape ≡ shape.now }
        ensures placed { result.places ≡ places }
        ensures adding { result.adds ≡ adds }
    {
        Layout {
            shape: *shape,
            places,
            adds,
        }
    }

    // The mask of the root, the highest.
    pub(crate) fn root(&self) -> usize
        ensures mask { result ≡ top self.now }
        ensures small { result < 64 }
    {
        self.shape.group_count() as usize - 1
    }

    // The place of the dimension that the group with a mask lacks; 0 for the root.
    fn lacked_place(&self, mask: usize) -> u32
        requires { mask ≤ top self.now }
        ensures { result ≡ lacked_at self.now self.now.adds (top self.now) mask }
    {
        if mask < self.root() {
            self.places[self.adds[mask] as usize]
        } else {
            0
        }
    }

    // The region of the group with a mask, from `base` on.
    pub(crate) fn region(&self, mask: usize, base: usize) -> Region
        requires { mask ≤ top self.now }
        ensures { result ≡ region_at self.now self.now.adds (top self.now) mask base }
    {
        Region {
            base,
            kept: kept_dimensions(mask as u32),
            lacked: self.lacked_place(mask),
        }
    }

    // The mask of the child of a group that lacks dimension e: one whose parent adds it.
    pub(crate) fn child(&self, mask: usize, e: usize) -> Option<usize>
        requires { (e < 6) × (mask < 64) }
        ensures { result ≡ (if child_at self.now.adds mask e then Some (mask - 2 ^ e) else None) }
    {
        if !kept_dimensions(mask as u32)[e] {
            return None;
        }
        let child = mask - (1 << e);
        (self.adds[child] as usize == e).then_some(child)
    }

    // Where the region of each group begins, by mask: the root's at 0, and those of the other groups behind it, one after the other.
    pub(crate) fn bases(&self) -> [usize; 64]
        ensures { Bases self.now self.now.adds (top self.now) (volume (dims_of self.now.shape)) result }
    {
        let mut bases = [0; 64];
        let mut next = self.shape.chunk_cells() as usize;
        for mask in 0..self.root() {
            bases[mask] = next;
            next += self.region_len(self.region(mask, 0));
        }
        bases
    }

    // The edges of the blocks of a region's group: a dropped dimension counts once.
    pub(crate) fn block_edges(&self, region: Region) -> Radices
        ensures { result.each ≡ block_edges self.now region }
    {
        self.shape.edge_radices().kept(region.kept)
    }

    // How many cells of a region lie along a dimension: where it is placed before the one that the region lacks, all of its size.
    fn radix(&self, region: Region, i: usize) -> usize
        requires { i < 6 }
        ensures { result ≡ radix_at self.now region i }
    {
        let dim = self.shape.dims()[i];
        if !region.kept[i] {
            1
        } else if self.places[i] < region.lacked {
            dim.size as usize
        } else {
            dim.edge as usize
        }
    }

    // The digit there of the first cell of a block.
    fn first(&self, region: Region, block: [u32; 6], i: usize) -> usize
        requires { i < 6 }
        ensures { result ≡ first_at self.now region block i }
    {
        if self.places[i] < region.lacked {
            block[i] as usize * self.shape.dims()[i].edge as usize
        } else {
            0
        }
    }

    // Where the first cell of a block stands, and the strides of its region.
    pub(crate) fn grid(&self, region: Region, block: [u32; 6]) -> Grid
        requires { start_of self.now region block < 2 ^ 64 }
        ensures start { result.start ≡ start_of self.now region block }
        ensures strides { result.strides ≡ strides_in self.now region }
    {
        // By number: a zip of the shape's dimensions, the places, the flags and the block is no plainer.
        let mut strides = [0; 6];
        let mut start = region.base;
        let mut size: usize = 1;
        for i in 0..6 {
            let stride = region.stride(i, size);
            strides[i] = stride;
            start += self.first(region, block, i) * stride;
            size *= self.radix(region, i);
        }
        Grid { start, strides }
    }

    // How many cells a region has.
    pub(crate) fn region_len(&self, region: Region) -> usize
        ensures { result ≡ cells_in self.now region }
    {
        // By number, as in `grid`, which works the same product out beside the strides.
        let mut size: usize = 1;
        for i in 0..6 {
            size *= self.radix(region, i);
        }
        size
    }
}
