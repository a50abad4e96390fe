// What a shape tells.
ghost use Rattle.std.specs.Prelude.{◌≡◌, length};
ghost use Rattle.shapes.specs.Arrays.{volume, total_chunks, none_dim};
ghost use Rattle.shapes.specs.Views.{dims_of, six};

use crate::dims::Dim;
use crate::shape::Shape;

impl Shape {
    /// The number of dimensions.
    pub fn dimensions(&self) -> usize
        ensures { result ≡ length (dims_of self.now) }
    {
        self.n
    }

    /// The dimensions; those past the last have size 1 and edge 1.
    // Six, with their number apart: a slice beside them would be a third way to read the same.
    pub fn dims(&self) -> [Dim; 6]
        ensures { result ≡ six none_dim (dims_of self.now) }
    {
        self.dims
    }

    /// V, the number of cells in a chunk.
    pub fn chunk_cells(&self) -> u32
        ensures { result ≡ volume (dims_of self.now) }
    {
        self.cells
    }

    /// T, the number of chunks.
    pub fn total_chunks(&self) -> u64
        ensures { result ≡ total_chunks (dims_of self.now) }
    {
        self.chunks
    }
}
