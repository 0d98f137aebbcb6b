//! Runs of bytes, of bits, and of integers, version 1.
#![tactic(auto)]

mod bits;
mod byte_bits;
mod byte_run;
mod byte_runs;
mod held_bits;
mod held_bytes;
mod int_runs1;
pub mod laws;
mod open_byte;
mod run1;
mod run1_in;
mod signed_byte;

pub use bits::Bits;
pub use byte_runs::ByteRuns;
pub use int_runs1::IntRuns1;
