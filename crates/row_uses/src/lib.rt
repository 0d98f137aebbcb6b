//! How a caller opens the streams of a column of a file in a store, read directly, by the public clauses of readers alone.
#![tactic(auto)]

mod stored_columns;

pub use stored_columns::open_in_store;
