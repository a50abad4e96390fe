// Which block is handed out next.
ghost use Rattle.std.specs.Prelude.{◌≡◌, ◌+◌, ◌^◌, ◌<◌, true, not, ◌&&◌, is_some, Some, None, ◌==◌};
ghost use Rattle.runs.specs.Trees.{NumberOf};
ghost use Rattle.runs.specs.Controls.{Advances, DoneExactly, FirstChild, Here, IsControlled, NextAt, NextBlock, Passes, Seen, Starts, WaitsExactly, is_waiting, waiting};

use crate::control::Control;
use crate::numbering::Block;
use crate::progress::Progress;
use crate::tree::Tree;

// Whether so many chunks passed are all of them, and no block waits.
fn all_over(passed: u64, total: u64, waits: bool) -> bool
    ensures { result ≡ (passed == total && not waits) }
{
    passed == total && !waits
}

// Masks are plain numbers, as in `regions`, so that each is below the number of groups is asked where one comes in.
impl Control {
    // Before the first chunk.
    pub(crate) fn start(tree: Tree) -> Control
        ensures { Starts tree result }
    {
        Control {
            tree,
            progress: Progress { counts: [0; 64] },
            passed: 0,
            handed: 0,
            next: None,
        }
    }

    // A chunk was passed: the root is next.
    pub(crate) fn pass(&mut self)
        requires idle { self.old.next ≡ None }
        requires more { self.old.passed < self.old.tree.total }
        ensures { Passes self.old self.new }
    {
        self.passed += 1;
        self.next = Some(self.tree.root());
    }

    // Whether a block waits.
    pub(crate) fn waits(&self) -> bool
        ensures next { result ≡ is_some self.now.next }
        ensures exactly { WaitsExactly self.now result }
    {
        self.next.is_some()
    }

    // Whether a block of a group but the root waits.
    fn is_behind(&self, mask: usize) -> bool
        requires { mask + 1 < 2 ^ self.now.tree.n }
        ensures { result ≡ waiting self.now.tree self.now.progress.counts mask }
    {
        let node = self.tree.nodes[mask];
        self.progress.counts[mask] < self.progress.counts[node.up] / node.period * node.share
    }

    // The first child of a group that waits, by rising mask.
    fn first_child(&self, mask: usize) -> Option<usize>
        requires { mask < 2 ^ self.now.tree.n }
        ensures { FirstChild self.now.tree self.now.progress.counts mask result }
    {
        (0..mask).find(|m| self.tree.nodes[*m].up == mask && self.is_behind(*m))
    }

    // Whether a block of a group waits.
    fn waits_at(&self, mask: usize) -> bool
        requires { mask < 2 ^ self.now.tree.n }
        ensures { result ≡ is_waiting self.now.tree self.now.passed self.now.progress.counts mask }
    {
        if mask == self.tree.root() {
            self.progress.counts[mask] < self.passed
        } else {
            self.is_behind(mask)
        }
    }

    // The first child of a group that waits, else the group if it waits.
    fn next_here(&self, mask: usize) -> Option<usize>
        requires { mask < 2 ^ self.now.tree.n }
        ensures { Here self.now.tree self.now.passed self.now.progress.counts mask result }
    {
        self.first_child(mask)
            .or_else(|| self.waits_at(mask).then_some(mask))
    }

    // What is next, seen from a group: there, else as seen from its parent.
    // The climb is a loop whose measure is the mask, which rises: `successors` promises no end.
    fn next_from(&self, from: usize) -> Option<usize>
        requires { from < 2 ^ self.now.tree.n }
        ensures { Seen self.now.tree self.now.passed self.now.progress.counts from result }
    {
        let root = self.tree.root();
        let mut mask = from;
        loop {
            if let Some(found) = self.next_here(mask) {
                return Some(found);
            }
            if mask == root {
                return None;
            }
            mask = self.tree.nodes[mask].up;
        }
    }

    // The block that is next, which is of the group with this mask.
    pub(crate) fn next_at(&self, mask: usize) -> Block
        requires { self.now.next ≡ Some mask }
        ensures at { NextAt self.now mask result.at }
        ensures number { NumberOf self.now.tree mask result.at result.number }
    {
        self.tree.block(mask as u32, self.progress.counts[mask])
    }

    // The block that is next, by its mask and its block number.
    pub(crate) fn next_block(&self) -> Option<(usize, u64)>
        ensures { NextBlock self.now result }
    {
        let mask = self.next?;
        Some((mask, self.next_at(mask).number))
    }

    // The block that is next was handed out.
    pub(crate) fn advance(&mut self)
        requires controlled { IsControlled self.old }
        requires waits { is_some self.old.next ≡ true }
        ensures { Advances self.old self.new }
    {
        if let Some(mask) = self.next {
            self.progress.count(mask);
            self.handed += 1;
            self.next = self.next_from(mask);
        }
    }

    // Whether all chunks were passed and no block waits.
    pub(crate) fn is_done(&self) -> bool
        ensures { DoneExactly self.now result }
    {
        all_over(self.passed, self.tree.total, self.waits())
    }
}
