//! Folds of the rows of a scan, and merges of answers.
#![tactic(auto)]

mod faults;
mod fold;
mod joined;
pub mod laws;
mod merge;

pub use faults::{MergeFault, Overflow};
pub use fold::Fold;
pub use joined::Joined;
pub use merge::Merge;
