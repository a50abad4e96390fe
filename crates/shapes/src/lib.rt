// Shapes of chunked arrays.
#![tactic(auto)]

mod checks;
mod compare;
mod dims;
mod groups;
mod laws;
mod numbers;
mod queries;
mod radices;
mod readings;
mod refusals;
mod shape;
#[cfg(test)]
mod tests;

pub use dims::Dim;
pub use groups::kept_dimensions;
pub use laws::{masks_number_groups, numbers_count_digits};
pub use radices::Radices;
pub use readings::Reading;
pub use refusals::{Cause, ShapeRefusal};
pub use shape::Shape;
