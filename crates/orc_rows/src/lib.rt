//! The rows of a file, by the columns that are read: stripe by stripe, batch by batch, into a consumer.
#![tactic(auto)]

mod fault;
mod judge;
pub mod laws;
mod start;
mod stripe;

pub use fault::RowsFault;
pub use judge::{Refused, judge_column, judge_columns};
pub use start::{start_column, start_columns};
pub use stripe::give_columns;
