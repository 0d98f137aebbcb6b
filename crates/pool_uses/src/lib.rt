//! How the pool's calls are used, as callers that are proved. No program uses this crate.
#![tactic(auto)]

mod evictions;
mod sharing;
mod turns;

pub use evictions::{evict_and_grant, try_to_evict};
pub use sharing::{publish_range, read_range, share};
pub use turns::{take_turns, turn};
