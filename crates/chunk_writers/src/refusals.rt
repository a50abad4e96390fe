// What stops a write.
ghost use Rattle.std.specs.Prelude.{◌≡◌};
ghost use Rattle.chunk_writers.specs.Refusals.{write_refusal};
ghost use Rattle.chunk_writers.specs.declared.refusals.WriteRefusal.TheVariants.{Memory as no_memory, Row as out_of_range};

use shapes::Cause;
use sources::RowRefusal;
use std::alloc::AllocError;

/// Why rows are not written.
#[derive(Clone, Copy, PartialEq, Eq, Debug)]
pub enum WriteRefusal {
    /// 11: this row has a coordinate that is not below its size, one past the last dimension that is not 0, or a reading over the limit.
    Row(usize),
    /// 24: this row lies on a cell that an earlier row has.
    Twice(usize),
    /// 25: the file would have more than 4,294,967,295 bytes.
    Long,
    /// 26: the buffer has less room than the file needs, which is this many bytes.
    Room(usize),
    /// There is no memory for a key of each row. The table of causes has no number for that, so it tells 0.
    Memory,
}

impl From<AllocError> for WriteRefusal {
    ghost from_gives = { λ x y. y ≡ no_memory };

    fn from(_e: AllocError) -> WriteRefusal {
        WriteRefusal::Memory
    }
}

impl From<RowRefusal> for WriteRefusal {
    ghost from_gives = { λ x y. y ≡ out_of_range x.row };

    fn from(e: RowRefusal) -> WriteRefusal {
        WriteRefusal::Row(e.row)
    }
}

impl Cause for WriteRefusal {
    ghost refusal = { write_refusal };

    fn number(&self) -> u32 {
        match *self {
            WriteRefusal::Row(_) => 11,
            WriteRefusal::Twice(_) => 24,
            WriteRefusal::Long => 25,
            WriteRefusal::Room(_) => 26,
            WriteRefusal::Memory => 0,
        }
    }

    fn place(&self) -> u64 {
        match *self {
            WriteRefusal::Row(i) | WriteRefusal::Twice(i) | WriteRefusal::Room(i) => i as u64,
            WriteRefusal::Long | WriteRefusal::Memory => 0,
        }
    }
}
