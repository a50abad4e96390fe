// What stops a run's call.
ghost use Rattle.std.specs.Prelude.{◌≡◌};
ghost use Rattle.runs.specs.Refusals.{run_refusal};
ghost use Rattle.runs.specs.declared.refusals.RunRefusal.TheVariants.{TooFew};

use plans::TooFewCells;
use shapes::Cause;

/// Why a take, a skip or a hand is refused.
#[derive(Clone, Copy, PartialEq, Eq, Debug)]
pub enum RunRefusal {
    /// 16: the chunk that is next can't be read. With its scan number, its storage number, and the entry and the cause of its fault.
    Unreadable {
        scan: u64,
        chunk: u64,
        entry: u32,
        // a number, as in the source's refusal, whose fields these are: refusals are public, and a struct would part them
        cause: u8,
    },
    /// 17: the run was made over fewer cells than the plan needs, which is so many.
    TooFew(u64),
    /// 18: a block waits to be handed out.
    BlockWaits,
    /// 19: all chunks were passed.
    AllPassed,
    /// 20: the source has another shape than the run.
    OtherShape,
    /// 21: the chunk that is next can be read, so it is not skipped.
    Readable,
    /// 22: no block waits.
    NoBlock,
    /// 23: the buffer has fewer cells than the block, which has so many.
    ShortBuffer(usize),
}

impl From<TooFewCells> for RunRefusal {
    ghost from_gives = { λ f r. r ≡ TooFew f.need };

    fn from(f: TooFewCells) -> RunRefusal {
        RunRefusal::TooFew(f.need)
    }
}

impl Cause for RunRefusal {
    ghost refusal = { run_refusal };

    fn number(&self) -> u32 {
        match *self {
            RunRefusal::Unreadable { .. } => 16,
            RunRefusal::TooFew(_) => 17,
            RunRefusal::BlockWaits => 18,
            RunRefusal::AllPassed => 19,
            RunRefusal::OtherShape => 20,
            RunRefusal::Readable => 21,
            RunRefusal::NoBlock => 22,
            RunRefusal::ShortBuffer(_) => 23,
        }
    }

    fn place(&self) -> u64 {
        match *self {
            RunRefusal::Unreadable { scan, .. } => scan,
            RunRefusal::TooFew(need) => need,
            RunRefusal::ShortBuffer(cells) => cells as u64,
            RunRefusal::BlockWaits | RunRefusal::AllPassed | RunRefusal::OtherShape => 0,
            RunRefusal::Readable | RunRefusal::NoBlock => 0,
        }
    }
}
