//! A fold that takes the rows of a walk, piece by piece.
#![tactic(auto)]

mod consumer;
mod copies;
pub mod laws;
mod named_batch;

pub use consumer::FoldConsumer;
