// How the body of a chunk is written.
ghost use Rattle.std.specs.Prelude.{◌≡◌};
ghost use Rattle.chunk_files.specs.Kinds.{kind_number, kind_of};

use crate::refusals::UnknownNumber;

/// How the body of a chunk is written.
#[derive(Clone, Copy, PartialEq, Eq, Debug)]
pub enum BodyKind {
    /// 0: the filled cells alone, each as its offset and its reading.
    Pairs,
    /// 1: a word for each cell.
    Words,
}

impl From<BodyKind> for u8 {
    ghost from_gives = { λ kind n. n ≡ kind_number kind };

    fn from(kind: BodyKind) -> u8 {
        match kind {
            BodyKind::Pairs => 0,
            BodyKind::Words => 1,
        }
    }
}

impl TryFrom<u8> for BodyKind {
    type Error = UnknownNumber;

    ghost try_from_gives = { λ n r. r ≡ kind_of n };

    fn try_from(number: u8) -> Result<BodyKind, UnknownNumber> {
        match number {
            0 => Ok(BodyKind::Pairs),
            1 => Ok(BodyKind::Words),
            _ => Err(UnknownNumber { number }),
        }
    }
}
