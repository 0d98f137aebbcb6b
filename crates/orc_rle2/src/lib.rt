//! Runs of integers, version 2.
#![tactic(auto)]

mod header;
mod int_runs2;
pub mod laws;
mod packed;
mod patched;
mod patches;
mod run2;
mod run2_in;
mod sums;
mod widths;

pub use int_runs2::IntRuns2;
