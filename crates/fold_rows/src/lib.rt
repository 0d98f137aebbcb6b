//! What rows that pass bring to a fold: what it has of none, and with those of a batch more.
#![tactic(auto)]

mod kept;
mod picks;
mod state;
mod whole;

pub use kept::{count_with, with_kept_rows};
pub use state::{State, nothing_of};
pub use whole::with_whole;
