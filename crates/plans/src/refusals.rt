// Why a scan is not given enough cells.
ghost use Rattle.plans.specs.Refusals.{too_few};

use shapes::Cause;

/// 17: fewer cells are given than the plan needs.
#[derive(Clone, Copy, PartialEq, Eq, Debug)]
pub struct TooFewCells {
    pub need: u64,
}

impl Cause for TooFewCells {
    ghost refusal = { too_few };

    fn number(&self) -> u32 {
        17
    }

    fn place(&self) -> u64 {
        self.need
    }
}
