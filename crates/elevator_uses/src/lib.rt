//! A caller of an elevator that is proved over its public clauses alone.
#![tactic(auto)]

mod one_read;

pub use one_read::read_range;
