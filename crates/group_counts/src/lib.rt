//! How often each value was counted, keys in order: counts of rows by the value of a column.
#![tactic(auto)]

mod counts;
mod entry_counts;
pub mod laws;
mod maps;
mod parts;
mod seen;

pub use counts::Counts;
pub use parts::Parts;
pub use seen::Seen;
