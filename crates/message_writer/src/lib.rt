//! Writes messages of protocol buffers: fields of numbers, of bytes and of packed numbers, one after the other.
//!
//! A field is written at the end of bytes, with the shortest varints. What a field means is the caller's.
#![tactic(auto)]

mod fields;
mod packing;
mod varints;

pub use fields::{push_bytes, push_number, push_packed};
