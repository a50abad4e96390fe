// The check of a chunk file, in the order in which it is refused.
ghost use Rattle.std.specs.Prelude.{◌≡◌, ℕ, ◌≤◌, length, take, drop, Some, None, MatchResult, slice_index};
ghost use Rattle.shapes.specs.Arrays.{volume, total_chunks};
ghost use Rattle.shapes.specs.Limits.{or_else, shape_fault};
ghost use Rattle.shapes.specs.Views.{dims_of};
ghost use Rattle.chunk_files.specs.Layouts.{directory_at, dims_from, head_fault, sizes_fault, directory_fault, file_fault, file_dims};
ghost use Rattle.chunk_files.specs.Refusals.{file_refusal};

use crate::bytes::{read_dim, read_entry};
use crate::refusals::FileRefusal;
use shapes::{Dim, Shape, ShapeRefusal};

// The number of dimensions, and the bytes from there on: the file begins with version 1, that number and two zero bytes.
fn read_mark(bytes: &[u8]) -> Result<(u8, &[u8]), FileRefusal>
    ensures { MatchResult result
        (λ p. (head_fault bytes.now ≡ None) × (p.0 ≡ slice_index bytes.now 1) × (p.1.now ≡ drop 4 bytes.now))
        (λ e. head_fault bytes.now ≡ Some (file_refusal e)) }
{
    let [version, n, zero_a, zero_b, rest @ ..] = bytes else {
        return Err(FileRefusal::Short);
    };
    if *version != 1 || *zero_a != 0 || *zero_b != 0 {
        return Err(FileRefusal::Mark);
    }
    Ok((*n, rest))
}

// Six dimensions. Where the bytes end early, the last ones mean nothing.
fn read_dims(bytes: &[u8]) -> [Dim; 6]
    ensures { (n : ℕ) → n ≤ 6 → take n result ≡ dims_from bytes.now 0 n }
{
    let mut dims = [Dim { size: 1, edge: 1 }; 6];
    for (i, dim) in dims.iter_mut().enumerate() {
        *dim = read_dim(bytes, 8 * i);
    }
    dims
}

// The shape that n dimensions in these bytes make.
fn read_shape(n: u8, rest: &[u8]) -> Result<Shape, FileRefusal>
    ensures { MatchResult result
        (λ s. (or_else (sizes_fault n (length rest.now)) (shape_fault (dims_from rest.now 0 n)) ≡ None) × (dims_of s ≡ dims_from rest.now 0 n))
        (λ e. or_else (sizes_fault n (length rest.now)) (shape_fault (dims_from rest.now 0 n)) ≡ Some (file_refusal e)) }
{
    let n = usize::from(n);
    if n < 1 || n > 6 {
        return Err(FileRefusal::Shape(ShapeRefusal::Dimensions));
    }
    if rest.len() < 8 * n {
        return Err(FileRefusal::Short);
    }
    let dims = read_dims(rest);
    let shape = Shape::new(&dims[..n])?;
    Ok(shape)
}

// The directory of a file of this shape, and where the bodies end.
fn check_directory(bytes: &[u8], shape: &Shape) -> Result<(), FileRefusal>
    ensures { MatchResult result
        (λ _. directory_fault bytes.now (directory_at (dims_of shape.now)) (volume (dims_of shape.now)) (total_chunks (dims_of shape.now)) ≡ None)
        (λ e. directory_fault bytes.now (directory_at (dims_of shape.now)) (volume (dims_of shape.now)) (total_chunks (dims_of shape.now)) ≡ Some (file_refusal e)) }
{
    let from = 4 + 8 * shape.dimensions();
    let cells = shape.chunk_cells() as usize;
    let chunks = shape.total_chunks() as usize;
    let mut at = from + 8 * chunks;
    if bytes.len() < at {
        return Err(FileRefusal::Short);
    }
    for j in 0..chunks {
        let e = read_entry(bytes, from + 8 * j);
        if !e.is_right(at, cells) {
            return Err(FileRefusal::Entry(j));
        }
        at += e.body_length(cells);
    }
    if at != bytes.len() {
        return Err(FileRefusal::End);
    }
    Ok(())
}

// Checks a file, and tells its shape.
pub(crate) fn check_file(bytes: &[u8]) -> Result<Shape, FileRefusal>
    ensures { MatchResult result (λ s. (file_fault bytes.now ≡ None) × (dims_of s ≡ file_dims bytes.now)) (λ e. file_fault bytes.now ≡ Some (file_refusal e)) }
{
    let (n, rest) = read_mark(bytes)?;
    let shape = read_shape(n, rest)?;
    check_directory(bytes, &shape)?;
    Ok(shape)
}
