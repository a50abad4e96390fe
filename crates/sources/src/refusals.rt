// What stops a fetch, a check of rows, and adding a correction.
ghost use Rattle.sources.specs.Refusals.{source_refusal, row_refusal, correction_refusal};

use shapes::Cause;

/// Why a fetch is refused.
#[derive(Clone, Copy, PartialEq, Eq, Debug)]
pub enum SourceRefusal {
    /// 14: there is no chunk with this storage number.
    Beyond,
    /// 15: the buffer has fewer cells than a chunk, which has this many.
    Short(usize),
    /// 16: the chunk can't be read. The cause is a number: each kind of source has causes of its own, and an associated type
    /// for them would stand in every call of a run, which may meet sources of several kinds.
    Unreadable { chunk: u64, entry: u32, cause: u8 },
}

impl Cause for SourceRefusal {
    ghost refusal = { source_refusal };

    fn number(&self) -> u32 {
        match *self {
            SourceRefusal::Beyond => 14,
            SourceRefusal::Short(_) => 15,
            SourceRefusal::Unreadable { .. } => 16,
        }
    }

    fn place(&self) -> u64 {
        match *self {
            SourceRefusal::Beyond => 0,
            SourceRefusal::Short(cells) => cells as u64,
            SourceRefusal::Unreadable { chunk, .. } => chunk,
        }
    }
}

/// Why a table of rows is refused.
#[derive(Clone, Copy, PartialEq, Eq, Debug)]
pub struct RowRefusal {
    /// 11: this row has a coordinate that is not below its size, one past the last dimension that is not 0, or a reading over the limit.
    pub row: usize,
}

impl Cause for RowRefusal {
    ghost refusal = { row_refusal };

    fn number(&self) -> u32 {
        11
    }

    fn place(&self) -> u64 {
        self.row as u64
    }
}

/// Why a correction is refused.
#[derive(Clone, Copy, PartialEq, Eq, Debug)]
pub enum CorrectionRefusal {
    /// 12: there is no such chunk or offset, or the reading is over the limit.
    OutOfRange,
    /// 13: 32 corrections are held.
    Full,
}

impl Cause for CorrectionRefusal {
    ghost refusal = { correction_refusal };

    fn number(&self) -> u32 {
        match *self {
            CorrectionRefusal::OutOfRange => 12,
            CorrectionRefusal::Full => 13,
        }
    }

    fn place(&self) -> u64 {
        0
    }
}
