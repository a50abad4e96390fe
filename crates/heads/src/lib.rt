// The heads of texts about a shape: the line of its dimensions, or the two lines of a refusal.
#![tactic(auto)]

mod dims_line;
mod refused_lines;
#[cfg(test)]
mod tests;

pub use dims_line::DimsLine;
pub use refused_lines::RefusedLines;
