//! What becomes of a fragment, and its printed text.
#![tactic(auto)]

mod answer;
mod causes;
mod failure;
mod fault_words;
mod groups;
mod lines;
mod outcome;
mod result;
mod row;
mod sending;
mod table;
mod value_text;
mod writer;

pub use answer::Answer;
pub use failure::Failure;
pub use groups::Groups;
pub use outcome::Outcome;
pub use result::write_result;
pub use row::Row;
pub use table::Table;
