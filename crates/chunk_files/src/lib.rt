// The chunk file: its layout, its opening, and the opened file as a source of chunks.
#![tactic(auto)]

mod bodies;
mod bytes;
mod checks;
mod entry;
mod faults;
mod file;
mod kind;
mod refusals;
mod source;
#[cfg(test)]
mod tests;

pub use entry::Entry;
pub use faults::BodyCause;
pub use file::ChunkFile;
pub use kind::BodyKind;
pub use refusals::{FileRefusal, UnknownNumber};
