// Plans of a scan: in which order the dimensions are scanned, which parent each group of kept dimensions is summed from, and how many cells that needs.
#![tactic(auto)]

mod checks;
mod making;
mod plan;
mod queries;
mod refusals;
#[cfg(test)]
mod tests;

pub use plan::Plan;
pub use refusals::TooFewCells;
