// The listing of a chunk file: its summaries as text.
#![tactic(auto)]

mod blocks;
mod counts;
mod driving;
mod examples;
mod first_lines;
mod laws;
mod letters;
mod lines;
mod listed;
mod listing;
mod refusals;

pub use examples::examples_are_listed;
pub use laws::only_empty_is_left_out;
pub use listing::list_input;
