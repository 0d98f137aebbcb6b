//! Columns of a stripe: their values, decoded from streams.
#![tactic(auto)]

mod column_reader;
mod column_rooms;
mod dictionary;
mod entry_lengths;
mod fault;
mod fills;
mod integers;
mod judging;
pub mod laws;
mod lengths;
mod numbers;
mod plan;
mod spelling;
mod text_bytes;
mod text_reader;
mod value_reader;

pub use column_reader::ColumnReader;
pub use column_rooms::ColumnRooms;
pub use fault::{ColumnFault, StreamName};
pub use judging::first_fault;
pub use orc_values::{Column, ColumnValues, Columns, Texts, Value, ValueRef};
pub use plan::ColumnPlan;
pub use spelling::{Spelling, Version, spelling_of};
