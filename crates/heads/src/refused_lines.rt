// The lines of a refusal.
ghost use Rattle.std.specs.Prelude.{Some};
ghost use Rattle.heads.specs.Heads.{refused_lines};

use std::fmt;

/// The number of a refusal and its place, written as two lines: no dimensions, and the two numbers.
#[derive(Clone, Copy)]
pub struct RefusedLines {
    /// The number of the refusal.
    pub number: u32,
    /// Its first value: the dimension, chunk or row at fault, or what is needed.
    pub place: u64,
}

impl fmt::Display for RefusedLines {
    ghost output = { λ r. Some (refused_lines r.number r.place) };

    fn fmt<W: fmt::Write>(&self, f: &mut fmt::Formatter<W>) -> fmt::Result {
        let number = self.number;
        let place = self.place;
        write!(f, "DIMS 0\nREFUSED {number} {place}\n")
    }
}
