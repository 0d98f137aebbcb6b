//! The columns of a file that a scan names, or why it can't read them.
#![tactic(auto)]

mod finding;
mod kind;
pub mod laws;
mod numbering;
mod serving;

pub use finding::find_columns;
pub use numbering::by_number;
