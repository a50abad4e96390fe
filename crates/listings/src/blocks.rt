// The lines of a block.
ghost use Rattle.listings.specs.Making.{Writes};
ghost use Rattle.listings.specs.Listings.{cell_lines};

use crate::lines::add_cell_line;
use crate::listed::Listed;
use std::alloc::AllocError;

// The cells of the block with this mask and number that are not empty, by offset.
pub(crate) fn add_block_lines<M: Listed>(
    text: &mut String,
    mask: u64,
    number: u64,
    cells: &[M],
) -> Result<(), AllocError>
    ensures { Writes result text.old text.new (cell_lines M.Measure.empty M.Measure.columns mask number 0 cells.now) }
{
    for (offset, value) in cells.iter().enumerate() {
        if !value.is_empty() {
            add_cell_line(text, mask, number, offset as u64, value)?;
        }
    }
    Ok(())
}
