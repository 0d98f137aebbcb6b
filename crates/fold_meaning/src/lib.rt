//! What the answer of a scan is, over its rows, in plain words.
#![tactic(auto)]

pub mod laws;
