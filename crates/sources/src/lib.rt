// Sources of chunks, over any measure: a table of rows, and a layer of corrections over any source.
#![tactic(auto)]

mod cells;
mod corrections;
mod refusals;
mod rows;
mod source;
mod table;
#[cfg(test)]
mod tests;

pub use cells::empty_cells;
pub use refusals::{CorrectionRefusal, RowRefusal, SourceRefusal};
pub use rows::{Row, RowTable};
pub use source::{Shaped, Source, check_room, fetch_twice};
pub use table::{Correction, Corrections};
