// Measures: what a cell of a summary holds.
#![tactic(auto)]

mod measure;
#[cfg(test)]
mod tests;
mod values;

pub use measure::{Measure, join_all};
pub use values::{Marks, Range, Total};
