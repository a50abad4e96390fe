// Quotes of a price list: for each line that names a shape, the least number of cells that will do.
#![tactic(auto)]

mod answers;
mod lines;
#[cfg(test)]
mod tests;

pub use answers::answer_line;
