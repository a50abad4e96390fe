// A source: a shape, and for each chunk its values or a fault.
ghost use Rattle.std.specs.Prelude.{◌≡◌, ℕ, List, length};
ghost use Rattle.shapes.specs.declared.dims.Dim.{Dim};
ghost use Rattle.shapes.specs.Views.{dims_of};
ghost use Rattle.sources.specs.Meanings.{Chunk, means, Sized, fetch_answer, cells_after, room_answer, AnsweredAlike};

use crate::refusals::SourceRefusal;
use measures::Measure;
use shapes::Shape;

/// What has a shape, and tells it.
pub trait Shaped {
    // the dimensions of the shape
    ghost told: { Self → List Dim };

    fn shape(&self) -> Shape
        ensures { dims_of result ≡ told self.now };
}

/// A source of chunks. It means its shape and, for each storage number below T, the values of a chunk by offset, or a fault.
/// No call alters the meaning.
pub trait Source<M: Measure>: Shaped {
    // each chunk by its storage number
    ghost contents: { Self → ℕ → Chunk M };

    /// Fills the first V cells with the values of a chunk, by offset. Where the chunk can't be read, they become empty.
    /// The rest of the buffer stays as it was, and so does all of it where there is no such chunk, or where V cells don't fit.
    fn fetch(&mut self, number: u64, into: &mut [M]) -> Result<(), SourceRefusal>
        ensures same { means Self.Shaped.told contents self.new ≡ means Self.Shaped.told contents self.old }
        ensures sized { Sized (means Self.Shaped.told contents self.old) }
        ensures answers { result ≡ fetch_answer (means Self.Shaped.told contents self.old) number (length into.old) }
        ensures fills { into.new ≡ cells_after M.empty (means Self.Shaped.told contents self.old) number into.old };
}

/// How every fetch begins: V, the number of cells that it fills, or 14 or 15.
pub fn check_room(shape: &Shape, number: u64, room: usize) -> Result<usize, SourceRefusal>
    ensures { result ≡ room_answer (dims_of shape.now) number room }
{
    if number >= shape.total_chunks() {
        return Err(SourceRefusal::Beyond);
    }
    let cells = shape.chunk_cells() as usize;
    if room < cells {
        return Err(SourceRefusal::Short(cells));
    }
    Ok(cells)
}

/// The same chunk fetched twice: a question put twice is answered alike.
pub fn fetch_twice<M: Measure, S: Source<M>>(
    source: &mut S,
    number: u64,
    first: &mut [M],
    second: &mut [M],
) -> (Result<(), SourceRefusal>, Result<(), SourceRefusal>)
    ensures same { means S.Shaped.told S.contents source.new ≡ means S.Shaped.told S.contents source.old }
    ensures first { (result.0 ≡ fetch_answer (means S.Shaped.told S.contents source.old) number (length first.old)) × (first.new ≡ cells_after M.empty (means S.Shaped.told S.contents source.old) number first.old) }
    ensures second { (result.1 ≡ fetch_answer (means S.Shaped.told S.contents source.old) number (length second.old)) × (second.new ≡ cells_after M.empty (means S.Shaped.told S.contents source.old) number second.old) }
    ensures alike { AnsweredAlike (means S.Shaped.told S.contents source.old) number first.old second.old first.new second.new result.0 result.1 }
{
    (source.fetch(number, first), source.fetch(number, second))
}
