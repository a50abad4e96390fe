// The control of a run.
ghost use Rattle.std.specs.Prelude.{◌≡◌, ℕ, ◌^◌, ◌<◌, length, Some};

use crate::progress::Progress;
use crate::tree::Tree;

// The tree; how far each group has come; how many chunks were passed and blocks handed out in all; and the mask of the group whose block is next.
#[derive(Clone, Copy)]
pub struct Control {
    pub tree: Tree,
    pub progress: Progress,
    pub passed: u64,
    pub handed: u64,
    pub next: Option<usize>,
    ghost all_counts: { length progress.counts ≡ 64 },
    ghost in_tree: { (m : ℕ) → next ≡ Some m → m < 2 ^ tree.n },
}
