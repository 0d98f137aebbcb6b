//! Writers of runs of bytes, of bits, and of integers, version 1.
#![tactic(auto)]

mod adding;
mod bit_stream;
mod byte_stream;
mod int_stream1;
mod number;
mod octets;
mod ramp;

pub use adding::{put, put_varint};
pub use bit_stream::write_bits;
pub use byte_stream::write_bytes;
pub use int_stream1::write_integers1;
pub use number::{bits_of_value, number_of, number_of_bits};
pub use ramp::{first_step, ramp_len};
