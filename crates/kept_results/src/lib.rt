//! Results of fragments that keep what they are: the meaning of their fragment on a world's files.
#![tactic(auto)]

mod kept;
pub mod laws;
mod shape;

pub use kept::Kept;
pub use shape::has_shape;
