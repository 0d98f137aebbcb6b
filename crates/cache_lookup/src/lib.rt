//! The look-up of a range of a file in the ways of its set.
//!
//! A cache's headers stand in sets of eight, the ways of the set. A range's key names its set, and the range is in the cache
//! where one of the set's ways shows that key. A look-up makes single steps on the pool's words, while other seats make theirs.
#![tactic(auto)]

pub mod laws;
mod set;
mod ways;

pub use set::first_header;
pub use ways::{Found, look_up};
