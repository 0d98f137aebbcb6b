use crate::attempt::Attempt;

/// What happened on a board. Fragments are named by number.
#[derive(Clone, Copy, PartialEq, Eq)]
pub enum BoardEvent {
    /// An absent fragment waits from now on.
    Offered(u32),
    /// The last of the waiting made room for the fragment that is offered next.
    Evicted(u32),
    /// A fragment that was offered stays absent: there is no room, and it isn't before the last of the waiting.
    Rejected(u32),
    /// An idle executor runs the first of the waiting.
    Started(Attempt),
    /// A running attempt was stopped, so that its executor can take a fragment that can finish.
    Preempted {
        /// The attempt that was stopped.
        victim: Attempt,
        /// The first of the waiting.
        made_for: u32,
    },
    /// An attempt ended with a result.
    Finished(Attempt),
    /// An attempt ended without one.
    GaveUp(Attempt),
}
