//! The cache of ranges of files: a range is read from a store once, and then from the pool's buffers as long as it stays there.
#![tactic(auto)]

mod cache;
mod fetching;
mod ranged;

pub use buffer_pool::{Geometry, Key, OpenFault, Pool, PoolSeat};
pub use cache::Cache;
pub use cache_placement::Why;
pub use fetching::fetch;
pub use ranged::{How, Ranged};
