// One cell of a summary.
ghost use Rattle.std.specs.Prelude.{◌≡◌, true, false, length, MatchOption};
ghost use Rattle.shapes.specs.Arrays.{group, sizes};
ghost use Rattle.shapes.specs.Views.{dims_of, six};
ghost use Rattle.summaries.specs.Answers.{kept_inside, is_cell};

use shapes::{Dim, Shape};

// A cell of the summary of the group with a mask: the dimensions that the group keeps, and the coordinates in them.
#[derive(Clone, Copy)]
pub(crate) struct SummaryCell {
    pub(crate) shape: Shape,
    pub(crate) mask: u32,
    // two lists by dimension number: in a dropped dimension the coordinate may be anything
    pub(crate) kept: [bool; 6],
    pub(crate) at: [u32; 6],
    ghost of_mask: { kept ≡ six false (group (length (dims_of shape)) mask) },
}

// Whether a coordinate is below its size in each kept dimension.
fn is_kept_inside(kept: [bool; 6], dims: [Dim; 6], at: [u32; 6]) -> bool
    ensures { result ≡ kept_inside kept (sizes dims) at }
{
    kept.iter()
        .zip(&at)
        .zip(&dims)
        .all(|((kept, x), d)| !*kept || *x < d.size)
}

impl SummaryCell {
    // The cell at these coordinates, if the number is a mask of the shape and each kept dimension's coordinate is below its size.
    pub(crate) fn of(shape: Shape, mask: u32, at: [u32; 6]) -> Option<SummaryCell>
        ensures { MatchOption result (is_cell (dims_of shape) mask at ≡ false) (λ c. (is_cell (dims_of shape) mask at ≡ true) × (c.shape ≡ shape) × (c.mask ≡ mask) × (c.at ≡ at)) }
    {
        let kept = shape.group(mask)?;
        if !is_kept_inside(kept, shape.dims(), at) {
            return None;
        }
        Some(SummaryCell {
            shape,
            mask,
            kept,
            at,
        })
    }
}
