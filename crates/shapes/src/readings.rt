// What one cell of the array is read as.
ghost use Rattle.std.specs.Prelude.{◌≡◌, ◌<◌, ◌≤◌, MatchOption};

/// A reading: a whole number from 0 to 16,777,215.
#[derive(Clone, Copy, PartialEq, Eq, Debug)]
pub struct Reading {
    value: u32,
    ghost within: { value ≤ 16777215 },
}

impl Reading {
    /// The largest number that is a reading.
    pub const LIMIT: u32 = 16_777_215;

    /// The reading of a number, or none where it is over the limit.
    pub fn new(value: u32) -> Option<Reading>
        ensures { MatchOption result (16777215 < value) (λ x. x.value ≡ value) }
    {
        if value > Reading::LIMIT {
            return None;
        }
        Some(Reading { value })
    }

    pub fn value(self) -> u32
        ensures { result ≡ self.value }
    {
        self.value
    }
}
