//! Ranges that are got through the cache and held, each for a slot, until they are let go.
#![tactic(auto)]

mod desk;
mod getting;
mod held;
pub mod laws;
mod leaving;
mod slots;
mod swapping;

pub use desk::Desk;
pub use held::{Held, are_same};
pub use leaving::let_go;
pub use slots::{empty_slots, free_slots};
pub use swapping::{let_go_all, swap};
