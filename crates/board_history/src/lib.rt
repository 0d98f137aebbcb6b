//! What happened on a board of fragments: the events, what they come to, and which events may come next.
#![tactic(auto)]

mod attempt;
mod event;
mod history;
pub mod laws;
mod place;
mod status;
mod totals;

pub use attempt::Attempt;
pub use event::BoardEvent;
pub use history::History;
pub use place::Place;
pub use status::FragmentStatus;
pub use totals::totals_of;
