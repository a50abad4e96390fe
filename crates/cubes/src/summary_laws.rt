// What is proved of the summaries, for every measure and whatever the source means. The measure comes as a value, as these signatures always had it.
ghost use Rattle.cubes.specs.BetweenHands.{RegionsBetweenHands};
ghost use Rattle.cubes.specs.SummaryLaws.{RootIsBase, ChildJoins, RegionsHold, CompleteWhenHanded};

use measures::Measure;

/// The root's direct summaries are the base cells.
pub fn root_is_base<M: Measure>(_m: &M)
    ensures { RootIsBase M.Measure.empty M.Measure.op }
{}

/// A child's direct summary is the join of its parent's along the dimension that it drops.
pub fn child_joins_parent<M: Measure>(_m: &M)
    ensures { ChildJoins M.Measure.empty M.Measure.op }
{}

/// What a region holds from one block of its parent to the next: fresh, joined, complete, emptied.
pub fn regions_hold<M: Measure>(_m: &M)
    ensures { RegionsHold M.Measure.empty M.Measure.op }
{}

/// When a block is handed out, its parent's blocks that were handed out before make it complete.
pub fn complete_when_handed<M: Measure>(_m: &M)
    ensures { CompleteWhenHanded M.Measure.empty M.Measure.op }
{}

/// What the region of each group holds between two hands, from the first block of the handing order to the last.
pub fn regions_between_hands<M: Measure>(_m: &M)
    ensures { RegionsBetweenHands M.Measure.empty M.Measure.op }
{}
