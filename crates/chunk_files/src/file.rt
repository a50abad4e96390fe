// A chunk file.
ghost use Rattle.std.specs.Prelude.{◌≡◌, ℕ, List, is_ok, Some, None, Decides, MatchResult};
ghost use Rattle.shapes.specs.declared.dims.Dim.{Dim};
ghost use Rattle.chunk_files.specs.declared.entry.Entry.{Entry};
ghost use Rattle.shapes.specs.Views.{dims_of};
ghost use Rattle.chunk_files.specs.Layouts.{Layout, file_fault, file_dims};
ghost use Rattle.chunk_files.specs.Bodies.{Tells};
ghost use Rattle.chunk_files.specs.Refusals.{file_refusal};

use crate::checks::check_file;
use crate::refusals::FileRefusal;
use shapes::Shape;

/// An opened chunk file: the caller's bytes, which were found to have the layout of a chunk file, and the shape that they tell.
#[derive(Clone, Copy)]
pub struct ChunkFile<'a> {
    pub(crate) bytes: &'a [u8],
    pub(crate) shape: Shape,
    ghost opened: { file_fault bytes.now ≡ None },
    ghost told: { dims_of shape ≡ file_dims bytes.now },
}

impl<'a> ChunkFile<'a> {
    /// Opens a file: it has to be whole and well laid out. What stands in a body is looked at when its chunk is fetched.
    pub fn open(bytes: &'a [u8]) -> Result<ChunkFile<'a>, FileRefusal>
        ensures checks { MatchResult result (λ f. (file_fault bytes.now ≡ None) × (f.bytes.now ≡ bytes.now)) (λ e. file_fault bytes.now ≡ Some (file_refusal e)) }
        ensures layout { Decides (is_ok result) ((ds : List Dim) × (es : List Entry) × (bodies : List (List ℕ)) × Layout bytes.now ds es bodies) }
        ensures tells { (ds : List Dim) (es : List Entry) (bodies : List (List ℕ)) → Layout bytes.now ds es bodies → Tells bytes.now ds es bodies }
    {
        let shape = check_file(bytes)?;
        Ok(ChunkFile { bytes, shape })
    }
}
