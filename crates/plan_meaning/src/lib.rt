//! What a plan means: that its fragments have outcomes, and each only one.
#![tactic(auto)]

pub mod laws;
