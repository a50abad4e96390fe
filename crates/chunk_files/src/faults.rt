// What makes a chunk unreadable.
ghost use Rattle.std.specs.Prelude.{◌≡◌};
ghost use Rattle.chunk_files.specs.Refusals.{cause_number, cause_of};

use crate::refusals::UnknownNumber;

/// Why a body is no body of its chunk.
#[derive(Clone, Copy, PartialEq, Eq, Debug)]
pub enum BodyCause {
    /// 1: an offset that a chunk doesn't have, or that is not above the one before.
    Offset,
    /// 2: a reading over the limit.
    Reading,
    /// 3: another number of filled cells than the entry tells.
    Count,
}

impl From<BodyCause> for u8 {
    ghost from_gives = { λ cause n. n ≡ cause_number cause };

    fn from(cause: BodyCause) -> u8 {
        match cause {
            BodyCause::Offset => 1,
            BodyCause::Reading => 2,
            BodyCause::Count => 3,
        }
    }
}

impl TryFrom<u8> for BodyCause {
    type Error = UnknownNumber;

    ghost try_from_gives = { λ n r. r ≡ cause_of n };

    fn try_from(number: u8) -> Result<BodyCause, UnknownNumber> {
        match number {
            1 => Ok(BodyCause::Offset),
            2 => Ok(BodyCause::Reading),
            3 => Ok(BodyCause::Count),
            _ => Err(UnknownNumber { number }),
        }
    }
}

// A cause, and the entry of the body at which it was found.
#[derive(Clone, Copy)]
pub(crate) struct BodyFault {
    pub(crate) cause: BodyCause,
    pub(crate) entry: u32,
}
