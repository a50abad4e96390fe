// How the state of a run goes on.
ghost use Rattle.std.specs.Prelude.{◌≡◌, ℕ, ◌+◌, ◌^◌, ◌<◌, true, false, length, is_some, Some, MatchResult, slice_index};
ghost use Rattle.shapes.specs.Arrays.{group, total_chunks};
ghost use Rattle.shapes.specs.Views.{dims_of};
ghost use Rattle.plans.specs.Views.{Planned};
ghost use Rattle.runs.specs.Answers.{close_answer, count_answer, done, hand_name, next_chunk, too_few, waits};
ghost use Rattle.runs.specs.Holdings.{state_view};
ghost use Rattle.runs.specs.Planned.{adds_of, block_after, need_of, places_of, scanned_storage};
ghost use Rattle.runs.specs.Steps.{Begins, BlockToHand, HandsOn, IsNextBlock, PassesOn, SamePlan};
ghost use Rattle.runs.specs.Trees.{Grown};

use crate::bases::Regions;
use crate::control::Control;
use crate::counts::{Closed, Counts};
use crate::numbering::{Block, block_cells};
use crate::refusals::RunRefusal;
use crate::state::State;
use crate::tree::Tree;
use plans::{Plan, TooFewCells};
use shapes::Shape;

// The block that is next: the mask of its group, its chunk coordinates, its number and how many cells it has.
#[derive(Clone, Copy)]
pub(crate) struct NextBlock {
    pub(crate) mask: usize,
    pub(crate) at: [u32; 6],
    pub(crate) number: u64,
    pub(crate) cells: usize,
}

// A plan that held its shape would be larger in every copy, for the two functions that are handed both.
// The tree of the plan's order and parents.
fn plan_tree(shape: &Shape, plan: &Plan) -> Tree
    requires { Planned (dims_of shape.now) plan.now }
    ensures { Grown (dims_of shape.now) (places_of (dims_of shape.now)) (adds_of (dims_of shape.now)) result }
{
    Tree::of(shape, plan.order(), plan.added())
}

// The regions in the plan's order and with its parents.
fn plan_regions(shape: &Shape, plan: &Plan) -> Regions
    requires { Planned (dims_of shape.now) plan.now }
    ensures shaped { result.layout.shape ≡ shape.now }
    ensures placed { (i : ℕ) → i < length (dims_of shape.now) → slice_index result.layout.places i ≡ places_of (dims_of shape.now) i }
    ensures adding { (m : ℕ) → m + 1 < 2 ^ length (dims_of shape.now) → slice_index result.layout.adds m ≡ adds_of (dims_of shape.now) (group (length (dims_of shape.now)) m) }
{
    Regions::of(shape, plan.order(), plan.added())
}

impl State {
    // Before the first chunk.
    pub(crate) fn new(shape: Shape) -> State
        ensures { Begins shape result }
    {
        let plan = Plan::of(&shape);
        State {
            shape,
            plan,
            regions: plan_regions(&shape, &plan),
            taken: 0,
            skipped: 0,
            control: Control::start(plan_tree(&shape, &plan)),
        }
    }

    // Whether a block waits.
    pub(crate) fn is_waiting(&self) -> bool
        ensures { (lent : ℕ) → result ≡ waits (state_view self.now lent) }
    {
        self.control.waits()
    }

    // Whether all chunks were passed and no block waits.
    pub(crate) fn is_done(&self) -> bool
        ensures { (lent : ℕ) → result ≡ done (state_view self.now lent) }
    {
        self.control.is_done()
    }

    // 17: fewer cells were lent than the plan needs.
    fn check_lent(&self, lent: usize) -> Result<(), TooFewCells>
        ensures { MatchResult result (λ _. too_few (state_view self.now lent) ≡ false) (λ e. (too_few (state_view self.now lent) ≡ true) × (e.need ≡ need_of (dims_of self.now.shape))) }
    {
        self.plan.check(lent)
    }

    // The storage number of the chunk whose scan number is the number of chunks passed.
    fn next_storage(&self) -> u64
        ensures { result ≡ scanned_storage (dims_of self.now.shape) (self.now.taken + self.now.skipped) }
    {
        let tree = &self.control.tree;
        tree.block(tree.root() as u32, self.control.passed).number
    }

    // The storage number of the chunk that is next, with so many cells lent, over a source of this shape; or 17, 18, 19, 20.
    pub(crate) fn chunk_to_pass(&self, lent: usize, other: &Shape) -> Result<u64, RunRefusal>
        ensures { result ≡ next_chunk (state_view self.now lent) (dims_of other.now) }
    {
        self.check_lent(lent)?;
        if self.is_waiting() {
            return Err(RunRefusal::BlockWaits);
        }
        if self.control.passed == self.control.tree.total {
            return Err(RunRefusal::AllPassed);
        }
        if self.shape != *other {
            return Err(RunRefusal::OtherShape);
        }
        Ok(self.next_storage())
    }

    // The chunk that is next was taken: one more is passed.
    pub(crate) fn count_taken(&mut self)
        requires idle { (lent : ℕ) → waits (state_view self.old lent) ≡ false }
        requires left { self.old.taken + self.old.skipped < total_chunks (dims_of self.old.shape) }
        ensures { PassesOn 1 0 self.old self.new }
    {
        self.control.pass();
        self.taken += 1;
    }

    // The chunk that is next was skipped: one more is passed. (One method for both would take a flag, and say less at its calls.)
    pub(crate) fn count_skipped(&mut self)
        requires idle { (lent : ℕ) → waits (state_view self.old lent) ≡ false }
        requires left { self.old.taken + self.old.skipped < total_chunks (dims_of self.old.shape) }
        ensures { PassesOn 0 1 self.old self.new }
    {
        self.control.pass();
        self.skipped += 1;
    }

    // The block that is next was handed out.
    pub(crate) fn count_handed(&mut self)
        requires { is_some self.old.control.next ≡ true }
        ensures { HandsOn self.old self.new }
    {
        self.control.advance();
    }

    // The block that is next, which is of the group with this mask.
    fn next_block(&self, mask: usize) -> NextBlock
        requires { self.now.control.next ≡ Some mask }
        ensures next { IsNextBlock self.now result }
        ensures name { (result.mask, result.number, result.cells) ≡ hand_name (dims_of self.now.shape) (block_after (dims_of self.now.shape) self.now.control.handed) }
    {
        let Block { at, number } = self.control.next_at(mask);
        NextBlock {
            mask,
            at,
            number,
            cells: block_cells(&self.shape, mask as u32) as usize,
        }
    }

    // The block that is next, with so many cells lent and a buffer of so many; or 17, 22, 23.
    pub(crate) fn block_to_hand(&self, lent: usize, room: usize) -> Result<NextBlock, RunRefusal>
        ensures { BlockToHand self.now lent room result }
    {
        self.check_lent(lent)?;
        let Some(mask) = self.control.next else {
            return Err(RunRefusal::NoBlock);
        };
        let block = self.next_block(mask);
        if room < block.cells {
            return Err(RunRefusal::ShortBuffer(block.cells));
        }
        Ok(block)
    }

    // What count answers.
    pub(crate) fn counts(&self) -> Counts
        ensures { (lent : ℕ) → result ≡ count_answer (state_view self.now lent) }
    {
        Counts {
            taken: self.taken,
            skipped: self.skipped,
            handed: self.control.handed,
            done: self.is_done(),
        }
    }

    // What close answers: the counts without `done`, which a `From<Counts>` would work out only to drop it.
    pub(crate) fn closed(&self) -> Closed
        ensures { (lent : ℕ) → result ≡ close_answer (state_view self.now lent) }
    {
        Closed {
            taken: self.taken,
            skipped: self.skipped,
            handed: self.control.handed,
        }
    }
}
