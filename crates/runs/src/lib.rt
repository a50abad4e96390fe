// A run of a scan over cells that the caller lends: the cells of all regions in one slice, and the control of what comes next.
#![tactic(auto)]

mod bases;
mod blocks;
mod boxes;
mod calls;
#[cfg(test)]
mod cell_tests;
mod control;
#[cfg(test)]
mod control_tests;
mod counts;
mod emptying;
mod handing;
mod layouts;
mod numbering;
mod progress;
mod refusals;
mod regions;
mod run;
mod standing;
mod state;
mod steps;
mod surveys;
mod taking;
mod tree;
mod trees;
mod turns;
mod walks;

pub use counts::{Closed, Counts};
pub use refusals::RunRefusal;
pub use run::Run;
pub use surveys::survey;
