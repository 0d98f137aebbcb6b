//! The flags of a column's rows: the stream PRESENT, and bits of a stream that a stripe may lack.
#![tactic(auto)]

mod batch;
mod bit_stream;
mod flags;
mod present;

pub use batch::BATCH;
pub use bit_stream::BitStream;
pub use flags::{count_flags, skip_bits};
pub use present::{Present, PresentState};
