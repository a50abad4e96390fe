// Rows written as a chunk file.
#![tactic(auto)]

mod bodies;
mod keys;
mod meaning;
mod puts;
mod refusals;
mod table;
#[cfg(test)]
mod tests;
mod writer;

pub use meaning::written_means_rows;
pub use refusals::WriteRefusal;
pub use writer::write;
