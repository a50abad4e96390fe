// What the three measures hold. A ghost field says that each number fits its type, so that the laws hold of every value.
ghost use Rattle.std.specs.Prelude.{◌^◌, ◌<◌};

/// How many readings there are, and their sum; each stops at 2^64 − 1.
#[derive(Clone, Copy, PartialEq, Eq, Debug)]
pub struct Total {
    pub count: u64,
    pub sum: u64,
    ghost fits: { (count < 2 ^ 64) × (sum < 2 ^ 64) },
}

/// The lowest and the highest reading. With no reading, the low is the largest `u32` and the high is 0.
#[derive(Clone, Copy, PartialEq, Eq, Debug)]
pub struct Range {
    pub low: u32,
    pub high: u32,
    ghost fits: { (low < 2 ^ 32) × (high < 2 ^ 32) },
}

/// Which remainders by 64 the readings have: a bit for each.
#[derive(Clone, Copy, PartialEq, Eq, Debug)]
pub struct Marks {
    pub bits: u64,
}
