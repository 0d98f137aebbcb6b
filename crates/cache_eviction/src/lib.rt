//! Buffers are evicted to make room: one header's, or that of the first victim that can be had.
#![tactic(auto)]

mod evicting;
mod victims;

pub use evicting::evict;
pub use victims::{Victim, evict_victim};
