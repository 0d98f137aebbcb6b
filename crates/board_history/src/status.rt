use crate::attempt::Attempt;

/// Where a fragment is.
#[derive(Clone, Copy, PartialEq, Eq)]
pub enum FragmentStatus {
    /// It isn't on the board: it was never offered, or was evicted, or its attempt was preempted.
    Absent,
    /// It waits for an executor.
    Waiting,
    /// This attempt of it runs.
    Running(Attempt),
    /// An attempt of it finished.
    Finished,
    /// An attempt of it gave up.
    GaveUp,
}
