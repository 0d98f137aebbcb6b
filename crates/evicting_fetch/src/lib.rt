//! Ranges of files are fetched through a cache that evicts: a range that isn't there takes the place of those that were used least.
#![tactic(auto)]

mod evictor;
mod fetching;

pub use evictor::Evictor;
pub use fetching::fetch;
