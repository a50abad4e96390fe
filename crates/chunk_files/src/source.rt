// A chunk file as a source.
ghost use Rattle.std.specs.Prelude.{◌≡◌, ◌<◌};
ghost use Rattle.shapes.specs.Arrays.{total_chunks};
ghost use Rattle.shapes.specs.Views.{dims_of};
ghost use Rattle.chunk_files.specs.Layouts.{file_dims};
ghost use Rattle.chunk_files.specs.Bodies.{entry_of};
ghost use Rattle.chunk_files.specs.Contents.{file_chunk};

use crate::bodies::read_chunk;
use crate::bytes::read_entry;
use crate::entry::Entry;
use crate::file::ChunkFile;
use measures::Measure;
use shapes::Shape;
use sources::{Shaped, Source, SourceRefusal, check_room};

impl<'a> ChunkFile<'a> {
    // The entry of a chunk.
    fn entry(&self, number: u64) -> Entry
        requires { number < total_chunks (dims_of self.now.shape) }
        ensures { result ≡ entry_of self.now.bytes.now number }
    {
        read_entry(
            self.bytes,
            4 + 8 * self.shape.dimensions() + 8 * number as usize,
        )
    }
}

impl<'a> Shaped for ChunkFile<'a> {
    ghost told = { λ s. file_dims s.bytes.now };

    fn shape(&self) -> Shape {
        self.shape
    }
}

/// The chunks of a file mean what its bytes say: each cell the lift of its reading, or the empty value.
/// A bad body makes only its own chunk unreadable.
impl<'a, M: Measure> Source<M> for ChunkFile<'a> {
    ghost contents = { λ s. file_chunk M.empty M.lifted s.bytes.now };

    fn fetch(&mut self, number: u64, into: &mut [M]) -> Result<(), SourceRefusal> {
        let cells = check_room(&self.shape, number, into.len())?;
        read_chunk(self.bytes, self.entry(number), number, &mut into[..cells])
    }
}
