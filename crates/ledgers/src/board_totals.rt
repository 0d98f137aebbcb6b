/// What happened on a board of fragments, and how many fragments were run beside it.
///
/// A count that has reached the greatest number stays there.
#[derive(Clone, Copy, Drop)]
pub struct BoardTotals {
    /// Fragments that were offered and may wait.
    pub offered: u64,
    /// Attempts that were started.
    pub started: u64,
    /// Attempts that were preempted.
    pub killed: u64,
    /// Attempts that ended with a result.
    pub finished: u64,
    /// Attempts that gave up.
    pub gave_up: u64,
    /// Fragments that the caller ran itself.
    pub inline_runs: u64,
}

impl BoardTotals {
    /// Nothing yet.
    pub const ZERO: BoardTotals = BoardTotals {
        offered: 0,
        started: 0,
        killed: 0,
        finished: 0,
        gave_up: 0,
        inline_runs: 0,
    };
}
