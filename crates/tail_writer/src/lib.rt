//! Writes the tail of an ORC file: by the columns of its rows and where its stripes lie.
//!
//! What is written is read by `orc_tail`'s definition of a tail as the stripes and the columns that were given.
#![tactic(auto)]

mod column_types;
mod file_column;
mod tail;

pub use file_column::FileColumn;
pub use tail::write_tail;
