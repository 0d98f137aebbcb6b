//! How a caller reads two columns of a stripe side by side, and which takes that makes, by the public clauses of columns alone.
#![tactic(auto)]

mod two_columns;

pub use two_columns::{Pair, batch_of_each, two_batches_of_each};
