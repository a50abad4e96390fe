// One dimension of an array.
ghost use Rattle.std.specs.Prelude.{Some};
ghost use Rattle.shapes.specs.Texts.{dim_text};

use std::fmt;

/// A dimension: its size, and the edge of the chunks that cut it.
#[derive(Clone, Copy, PartialEq, Eq, Debug)]
pub struct Dim {
    pub size: u32,
    pub edge: u32,
}

/// A dimension is written as its size, a slash and its edge.
impl fmt::Display for Dim {
    ghost output = { λ d. Some (dim_text d) };

    fn fmt<W: fmt::Write>(&self, f: &mut fmt::Formatter<W>) -> fmt::Result {
        let size = self.size;
        let edge = self.edge;
        write!(f, "{size}/{edge}")
    }
}
