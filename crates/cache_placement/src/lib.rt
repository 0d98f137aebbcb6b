//! A place in the cache for a range that no way of its set has: a header of the set, a block of an arena, and a new buffer
//! of both. It makes single steps on the pool's words, while other seats make theirs.
#![tactic(auto)]

mod arenas;
mod opening;
mod placing;
mod why;

pub use placing::place;
pub use why::{Placed, Why};
