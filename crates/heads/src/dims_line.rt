// The line of the dimensions.
ghost use Rattle.std.specs.Prelude.{Some};
ghost use Rattle.heads.specs.Heads.{dims_line};

use shapes::Dim;
use std::fmt;

/// Dimensions, written as one line: how many there are, and each as a field.
#[derive(Clone, Copy)]
pub struct DimsLine<'a>(pub &'a [Dim]);

impl fmt::Display for DimsLine<'_> {
    ghost output = { λ line. Some (dims_line line.0.now) };

    fn fmt<W: fmt::Write>(&self, f: &mut fmt::Formatter<W>) -> fmt::Result {
        let n = self.0.len();
        write!(f, "DIMS {n}")?;
        for d in self.0 {
            write!(f, " {d}")?;
        }
        f.write_str("\n")
    }
}
