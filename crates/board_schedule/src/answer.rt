use board_history::Attempt;

/// What became of a fragment that was offered.
#[derive(Clone, Copy, PartialEq, Eq)]
pub enum Offer {
    /// It waits, and there was room.
    Accepted,
    /// It waits, and this fragment, the last of the waiting, was sent away for it.
    EvictedOther(u32),
    /// It stays absent: there is no room, and it doesn't come before the last of the waiting.
    Rejected,
}

/// An attempt that was stopped.
#[derive(Clone, Copy, PartialEq, Eq)]
pub struct Preempt {
    /// The attempt.
    pub victim: Attempt,
    /// The fragment that can finish, for which its executor is idle now.
    pub made_for: u32,
}

/// Whether an attempt's end was taken.
#[derive(Clone, Copy, PartialEq, Eq)]
pub enum Finish {
    /// It was: the attempt was running.
    Kept,
    /// It wasn't: the attempt doesn't run.
    Stale {
        /// The number of the fragment's current attempt.
        current: u32,
    },
}
