// Coordinates and numbers of a shape. Coordinates come as six, those past the last dimension being 0.
ghost use Rattle.std.specs.Prelude.{◌≡◌, ℕ, ◌<◌, ◌≤◌, slice_index};
ghost use Rattle.shapes.specs.Arrays.{counts, edges, dim, numbered, chunk_of, local_of};
ghost use Rattle.shapes.specs.Views.{dims_of, six};
ghost use Rattle.shapes.specs.declared.dims.Dim.{Dim as Cut};

use crate::dims::Dim;
use crate::radices::Radices;
use crate::shape::Shape;

impl Shape {
    /// The chunk count of each dimension, and 1 past the last.
    pub fn chunk_counts(&self) -> [u32; 6]
        ensures { result ≡ six 1 (counts (dims_of self.now)) }
    {
        // A loop: under `map` the division's proof did not close, since the closure knows no bound of its edge.
        let mut counts = [1; 6];
        for (i, d) in self.dims[..self.n].iter().enumerate() {
            counts[i] = d.size / d.edge;
        }
        counts
    }

    /// The edge of each dimension, and 1 past the last.
    pub fn edges(&self) -> [u32; 6]
        ensures { result ≡ six 1 (edges (dims_of self.now)) }
    {
        self.dims.map(|d| d.edge)
    }

    /// The chunk counts as radices: those of storage numbers.
    pub fn count_radices(&self) -> Radices
        ensures { result.each ≡ six 1 (counts (dims_of self.now)) }
    {
        Radices {
            each: self.chunk_counts(),
        }
    }

    /// The edges as radices: those of offsets.
    pub fn edge_radices(&self) -> Radices
        ensures { result.each ≡ six 1 (edges (dims_of self.now)) }
    {
        Radices { each: self.edges() }
    }

    // What `of` makes of the coordinate in each dimension; 0 past the last.
    fn by_dimension<F: Fn(u32, Dim) -> u32>(&self, at: [u32; 6], of: F) -> [u32; 6]
        requires { (x : ℕ) (d : Cut) → 1 ≤ d.edge → F.pre of x d }
        ensures each { (i : ℕ) → i < self.now.n → F.post of (slice_index at i) (dim (dims_of self.now) i) (slice_index result i) }
        ensures past { (i : ℕ) → self.now.n ≤ i → slice_index result i ≡ 0 }
    {
        let mut made = [0; 6];
        for (i, d) in self.dims[..self.n].iter().enumerate() {
            made[i] = of(at[i], *d);
        }
        made
    }

    /// The chunk that a coordinate lies in. What stands past the last dimension is not read.
    pub fn chunk_of(&self, at: [u32; 6]) -> [u32; 6]
        ensures { result ≡ six 0 (chunk_of (dims_of self.now) at) }
    {
        self.by_dimension(at, |x, d| x / d.edge)
    }

    /// The local coordinates in its chunk of a coordinate.
    pub fn local_of(&self, at: [u32; 6]) -> [u32; 6]
        ensures { result ≡ six 0 (local_of (dims_of self.now) at) }
    {
        self.by_dimension(at, |x, d| x % d.edge)
    }

    /// The storage number of the chunk with these chunk coordinates, or none where the array has no such chunk.
    pub fn storage_number(&self, chunk: [u32; 6]) -> Option<u64>
        ensures { result ≡ numbered (counts (dims_of self.now)) chunk }
    {
        self.count_radices().number(chunk)
    }

    /// The offset in its chunk of the cell with these local coordinates, or none where a chunk has no such cell.
    pub fn offset(&self, local: [u32; 6]) -> Option<u32>
        ensures { result ≡ numbered (edges (dims_of self.now)) local }
    {
        let offset = self.edge_radices().number(local)?;
        Some(offset as u32)
    }
}
