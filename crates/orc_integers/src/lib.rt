//! What the two versions of the runs of integers share: what numbers stand for, runs of equal steps, and the
//! values of a run that are read and not yet given.
#![tactic(auto)]

mod eights;
mod held;
mod in_place;
mod integers;
mod ramp;
mod run_room;

pub use held::Held;
pub use in_place::{integers_in, varint_in};
pub use integers::{bits_of, write_integers};
pub use ramp::{write_copies, write_ramp};
pub use run_room::{MOST, RunRoom};
