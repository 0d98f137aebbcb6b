//! The wire format of protocol buffers: the fields of a message, the numbers of a packed field, and varints.
//!
//! A message is read field by field, without a copy and without memory. What a field means is the caller's.
#![tactic(auto)]

mod fault;
mod field;
mod fields;
pub mod laws;
mod packed;
mod reading;
mod varint;

pub use fault::WireFault;
pub use field::{Field, FieldValue};
pub use fields::Fields;
pub use packed::Packed;
pub use varint::{varint_len, write_varint};
