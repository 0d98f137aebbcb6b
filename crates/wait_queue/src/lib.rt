//! The board of a plan's fragments: which wait, in their order, which run, finished or gave up, and the results of those that finished.
#![tactic(auto)]

mod board;

pub use board::Board;
pub use board_history::{Attempt, BoardEvent, FragmentStatus};
pub use board_schedule::{Finish, Offer, Preempt};
pub use kept_results::Kept;
pub use ledgers::BoardTotals;
