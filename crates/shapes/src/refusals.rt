// What stops a call, by number. Each refusal of each crate bears its number and what it returns.
ghost use Rattle.std.specs.Prelude.{◌≡◌, slice_index};
ghost use Rattle.shapes.specs.Limits.{Refusal};
ghost use Rattle.shapes.specs.Refusals.{shape_refusal};

/// A cause that stops a call.
pub trait Cause {
    // the number of the cause, and the values that are returned with it
    ghost refusal: { Self → Refusal };

    /// The number of the cause.
    fn number(&self) -> u32
        ensures { result ≡ (refusal self.now).0 };

    /// The first value that is returned with it: the dimension, chunk or row at fault, or what is needed; 0 where there is none.
    fn place(&self) -> u64
        ensures { result ≡ slice_index (refusal self.now).1 0 };
}

/// Why dimensions make no shape.
#[derive(Clone, Copy, PartialEq, Eq, Debug)]
pub enum ShapeRefusal {
    /// 1: there are none, or more than six.
    Dimensions,
    /// 2: the size of this dimension is not 1 to 16,384.
    Size(usize),
    /// 3: the edge of this dimension is not 1 to its size.
    Edge(usize),
    /// 4: the edge of this dimension doesn't divide its size.
    Division(usize),
    /// 5: a chunk has more than 16,384 cells.
    Volume,
    /// 6: the array has more than 2^34 cells.
    Extent,
}

impl Cause for ShapeRefusal {
    ghost refusal = { shape_refusal };

    fn number(&self) -> u32 {
        match *self {
            ShapeRefusal::Dimensions => 1,
            ShapeRefusal::Size(_) => 2,
            ShapeRefusal::Edge(_) => 3,
            ShapeRefusal::Division(_) => 4,
            ShapeRefusal::Volume => 5,
            ShapeRefusal::Extent => 6,
        }
    }

    fn place(&self) -> u64 {
        match *self {
            ShapeRefusal::Size(i) | ShapeRefusal::Edge(i) | ShapeRefusal::Division(i) => i as u64,
            ShapeRefusal::Dimensions | ShapeRefusal::Volume | ShapeRefusal::Extent => 0,
        }
    }
}
