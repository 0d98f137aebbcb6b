//! Makes ORC files: row by row, or of rows that are a function of two numbers.
//!
//! It gives out what other crates have: the writer of `orc_writer`, the generated file of `generated_file`, and the store that has it of
//! `generated_store`.
#![tactic(auto)]

pub use generated_file::generate;
pub use generated_store::{Generated, Made};
pub use orc_writer::{ColumnSpec, MakeFault, OpaqueStream, Spelling, Writer};
