// One summary cell, straight from its definition.
#![tactic(auto)]

mod cell;
mod cells;
mod refusals;
mod summary;
#[cfg(test)]
mod tests;

pub use refusals::SummaryRefusal;
pub use summary::direct_summary;
