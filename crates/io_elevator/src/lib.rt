//! A reader of ranges and streams that goes through the cache.
#![tactic(auto)]

mod closing;
mod elevator;
mod scratch;
mod sound_stream;

pub use elevator::Elevator;
pub use scratch::Scratch;
pub use sound_stream::SoundStream;
