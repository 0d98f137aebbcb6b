//! Generated files: ORC files of rows that are a function of two numbers.
#![tactic(auto)]

mod columns;
mod making;
mod pushing;

pub use making::generate;
