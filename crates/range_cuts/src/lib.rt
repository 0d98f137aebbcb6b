//! Cuts of a range of a file: the ranges that a stream is got by.
#![tactic(auto)]

mod cuts;
pub mod laws;

pub use cuts::cut_ranges;
