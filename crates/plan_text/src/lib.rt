//! Writing a plan plainly: what ties the plan language to its text.
#![tactic(auto)]

pub mod laws;
