//! Batches of all read columns of a stripe, and what takes them.
#![tactic(auto)]

mod batches;
mod consumer;
pub mod laws;
mod stripe_rows;

pub use batches::next_batches;
pub use consumer::Consumer;
pub use stripe_rows::give_rows;
