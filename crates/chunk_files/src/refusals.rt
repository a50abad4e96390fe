// What stops the opening of a file.
ghost use Rattle.std.specs.Prelude.{◌≡◌};
ghost use Rattle.chunk_files.specs.Refusals.{file_refusal};
ghost use Rattle.chunk_files.specs.declared.refusals.FileRefusal.TheVariants.{Shape as of_shape};

use shapes::{Cause, ShapeRefusal};

/// Why bytes are no chunk file.
#[derive(Clone, Copy, PartialEq, Eq, Debug)]
pub enum FileRefusal {
    /// 7: the bytes end inside the header or the directory.
    Short,
    /// 8: byte 0 is not 1, or byte 2 or 3 is not 0.
    Mark,
    /// 1 to 6: the dimensions make no shape.
    Shape(ShapeRefusal),
    /// 9: the start, the kind, the count or the zero byte of this chunk's entry is wrong.
    Entry(usize),
    /// 10: the bodies don't end at the last byte.
    End,
}

/// A number that stands for no kind of body, or for no cause.
#[derive(Clone, Copy, PartialEq, Eq, Debug)]
pub struct UnknownNumber {
    /// The number that was given.
    pub number: u8,
}

impl From<ShapeRefusal> for FileRefusal {
    ghost from_gives = { λ x y. y ≡ of_shape x };

    fn from(x: ShapeRefusal) -> FileRefusal {
        FileRefusal::Shape(x)
    }
}

impl Cause for FileRefusal {
    ghost refusal = { file_refusal };

    fn number(&self) -> u32 {
        match *self {
            FileRefusal::Short => 7,
            FileRefusal::Mark => 8,
            FileRefusal::Shape(r) => r.number(),
            FileRefusal::Entry(_) => 9,
            FileRefusal::End => 10,
        }
    }

    fn place(&self) -> u64 {
        match *self {
            FileRefusal::Shape(r) => r.place(),
            FileRefusal::Entry(j) => j as u64,
            FileRefusal::Short | FileRefusal::Mark | FileRefusal::End => 0,
        }
    }
}
