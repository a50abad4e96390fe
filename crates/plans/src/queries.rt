// What a plan tells.
ghost use Rattle.std.specs.Prelude.{◌≡◌};
ghost use Rattle.plans.specs.Views.{parent_of};

use crate::plan::Plan;

impl Plan {
    /// The place of each dimension, from 1; 0 past the last dimension.
    pub fn order(&self) -> [u32; 6]
        ensures { result ≡ self.now.places }
    {
        self.places
    }

    /// The mask of a group's parent; the root has none, nor has a number that is no mask of the shape.
    #[tactic(auto, using(crate::proofs::Few::few_masks))]
    pub fn parent(&self, mask: u32) -> Option<u32>
        ensures { result ≡ parent_of self.now mask }
    {
        let root = (1 << self.n) - 1;
        (mask < root).then(|| mask + (1 << self.adds[mask as usize]))
    }

    /// By mask, the dimension that the parent of each group adds; 0 for the root and for what is no mask.
    pub fn added(&self) -> [u8; 64]
        ensures { result ≡ self.now.adds }
    {
        self.adds
    }

    /// The cells that the plan needs.
    pub fn need(&self) -> u64
        ensures { result ≡ self.now.need }
    {
        self.need
    }
}
