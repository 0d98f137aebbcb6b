//! The rows of a generated file.
#![tactic(auto)]

mod row;

pub use row::row_at;
