//! Room for a range in a cache: a way of a set that is full, and a block of arenas that are full, by evictions.
//!
//! The policy is told of all touches first. Its victims are tried in their order, and after them whatever wasn't tried.
#![tactic(auto)]

mod marks;
mod placing;
mod room;
mod trying;
mod wanted;
mod ways;

pub use placing::place_or_evict;
pub use room::Room;
pub use wanted::Wanted;
pub use ways::free_way;
