// The lines of a listing, each written behind a text. Want of memory is the only other answer.
// They are functions on the text: a struct around it would hold nothing else, and each contract would name its field in place of the text.
ghost use Rattle.std.specs.Prelude.{◌≡◌, map, IfOk, string_bytes, decimal};
ghost use Rattle.listings.specs.Lines.{spaced, dims_line, cells_line, cell_line, end_line, refused_lines};
ghost use Rattle.listings.specs.Making.{Writes};

use heads::{DimsLine, RefusedLines};
use measures::Measure;
use shapes::Dim;
use std::alloc::{AllocError, Global};

#[tactic(auto, unfolding(crate::specs::Lines::dims_line))]
pub(crate) fn add_dims_line(text: &mut String, dims: &[Dim]) -> Result<(), AllocError>
    ensures { Writes result text.old text.new (dims_line dims.now) }
{
    let line = DimsLine(dims);
    write!(text, "{line}")
}

#[tactic(auto, unfolding(crate::specs::Lines::cells_line))]
pub(crate) fn add_cells_line(
    text: &mut String,
    need: u64,
    unreadable: u64,
) -> Result<(), AllocError>
    ensures { Writes result text.old text.new (cells_line need unreadable) }
{
    write!(text, "CELLS {need} UNREADABLE {unreadable}\n")
}

// The columns of a value, each behind a space.
fn add_columns<M: Measure>(text: &mut String, value: &M) -> Result<(), AllocError>
    ensures { Writes result text.old text.new (spaced (map decimal (M.columns value.now))) }
{
    for i in 0..M::column_count() {
        write!(text, " {}", value.column(i))?;
    }
    Ok(())
}

// The line of a cell.
#[tactic(auto, unfolding(crate::specs::Lines::cell_line))]
pub(crate) fn add_cell_line<M: Measure>(
    text: &mut String,
    mask: u64,
    number: u64,
    offset: u64,
    value: &M,
) -> Result<(), AllocError>
    ensures { Writes result text.old text.new (cell_line mask number offset (M.columns value.now)) }
{
    write!(text, "{mask} {number} {offset}")?;
    add_columns(text, value)?;
    text.push_str("\n")
}

#[tactic(auto, unfolding(crate::specs::Lines::end_line))]
pub(crate) fn add_end_line(
    text: &mut String,
    readable: u64,
    unreadable: u64,
    blocks: u64,
) -> Result<(), AllocError>
    ensures { Writes result text.old text.new (end_line readable unreadable blocks) }
{
    write!(text, "END {readable} {unreadable} {blocks}\n")
}

// The lines of a refused file.
#[tactic(auto, unfolding(crate::specs::Lines::refused_lines))]
pub(crate) fn refused_lines(heap: Global, number: u32, place: u64) -> Result<String, AllocError>
    ensures { IfOk result (λ s. string_bytes s ≡ refused_lines number place) }
{
    RefusedLines { number, place }.to_string(heap)
}
