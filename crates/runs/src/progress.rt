// How far each group has come.
ghost use Rattle.std.specs.Prelude.{◌≡◌, ◌+◌, ◌^◌, ◌<◌, slice_index, slice_set};

// The progress of each group, by mask: how many of its blocks were handed out, which is the number of its next block in scan order.
#[derive(Clone, Copy)]
pub struct Progress {
    pub counts: [u64; 64],
}

impl Progress {
    // One more block of a group was handed out.
    pub(crate) fn count(&mut self, mask: usize)
        requires { (mask < 64) × (slice_index self.old.counts mask + 1 < 2 ^ 64) }
        ensures { self.new.counts ≡ slice_set self.old.counts mask (slice_index self.old.counts mask + 1) }
    {
        self.counts[mask] += 1;
    }
}
