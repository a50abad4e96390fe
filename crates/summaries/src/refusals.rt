// Why a summary cell is not told.

#[derive(Clone, Copy, PartialEq, Eq, Debug)]
pub enum SummaryRefusal {
    /// The number is no mask of the shape, or a kept dimension's coordinate is not below its size.
    Outside,
    /// The buffer has fewer cells than a chunk, which has this many.
    Short(usize),
}
