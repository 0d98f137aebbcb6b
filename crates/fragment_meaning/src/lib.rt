//! What the fragments of a plan mean, on the files' bytes.
#![tactic(auto)]

pub mod laws;
