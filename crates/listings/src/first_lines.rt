// The first two lines of a listing.
ghost use Rattle.std.specs.Prelude.{◌≡◌, ◌≤◌, ◌++◌, length};
ghost use Rattle.shapes.specs.Arrays.{volume};
ghost use Rattle.shapes.specs.Views.{dims_of};
ghost use Rattle.sources.specs.Meanings.{means};
ghost use Rattle.listings.specs.Lines.{dims_line, cells_line};
ghost use Rattle.listings.specs.Making.{Writes};
ghost use Rattle.runs.specs.Surveys.{unreadable_chunks};

use crate::counts::count_unreadable;
use crate::lines::{add_cells_line, add_dims_line};
use measures::Measure;
use shapes::Shape;
use sources::{Shaped, Source};
use std::alloc::AllocError;

fn add_shape_line(text: &mut String, shape: &Shape) -> Result<(), AllocError>
    ensures { Writes result text.old text.new (dims_line (dims_of shape.now)) }
{
    let dims = shape.dims();
    add_dims_line(text, &dims[..shape.dimensions()])
}

// The dimensions; then the need and how many chunks can't be read, for which each is fetched into the buffer.
pub(crate) fn add_first_lines<M: Measure, S: Source<M>>(
    text: &mut String,
    source: &mut S,
    need: u64,
    buffer: &mut [M],
) -> Result<(), AllocError>
    requires { volume (S.Shaped.told source.old) ≤ length buffer.old }
    ensures same { means S.Shaped.told S.contents source.new ≡ means S.Shaped.told S.contents source.old }
    ensures lines { Writes result text.old text.new (dims_line (S.Shaped.told source.old) ++ cells_line need (unreadable_chunks (means S.Shaped.told S.contents source.old))) }
{
    add_shape_line(text, &source.shape())?;
    let unreadable = count_unreadable(source, buffer);
    add_cells_line(text, need, unreadable)
}
