//! The columns of a table that is written: those whose rows are given, and those whose streams nobody reads.
#![tactic(auto)]

mod clearing;
mod encodings;
mod row_push;
mod row_test;
mod table_column;

pub use clearing::clear;
pub use encodings::encoding_number;
pub use row_push::push_row;
pub use row_test::takes;
pub use table_column::{Content, OpaqueStream, TableColumn};
