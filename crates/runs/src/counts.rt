// What a run tells of itself.

/// How many chunks were taken and skipped and how many blocks were handed out, and whether the run is done: all chunks were passed, and no block waits.
#[derive(Clone, Copy, PartialEq, Eq, Debug)]
pub struct Counts {
    pub taken: u64,
    pub skipped: u64,
    pub handed: u64,
    pub done: bool,
}

/// What a run did, told as it is closed.
#[derive(Clone, Copy, PartialEq, Eq, Debug)]
pub struct Closed {
    pub taken: u64,
    pub skipped: u64,
    pub handed: u64,
}
