// The check that a plan is given enough cells.
ghost use Rattle.std.specs.Prelude.{◌≡◌, Some, None, MatchResult};
ghost use Rattle.plans.specs.Refusals.{too_few, check_fault};

use crate::plan::Plan;
use crate::refusals::TooFewCells;

impl Plan {
    /// Whether so many cells are as many as the plan needs.
    pub fn check(&self, cells: usize) -> Result<(), TooFewCells>
        ensures { MatchResult result (λ _. check_fault cells self.now.need ≡ None) (λ e. check_fault cells self.now.need ≡ Some (too_few e)) }
    {
        if (cells as u64) < self.need {
            return Err(TooFewCells { need: self.need });
        }
        Ok(())
    }
}
