//! The schedule of a plan's fragments: which wait, in their order, and which run, finished or gave up.
#![tactic(auto)]

mod answer;
mod calls;
mod ends;
mod order;
mod schedule;

pub use answer::{Finish, Offer, Preempt};
pub use schedule::Schedule;
