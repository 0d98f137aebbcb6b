//! Fields at the end of a message's bytes.

ghost use Rattle.std.specs.Prelude.{◌≡◌, ◌++◌, ◌≤◌, IfOk};
ghost use Rattle.orc_proto.specs.Message.{VARINT, LEN};
ghost use Rattle.message_writer.specs.Written.{number_spelling, bytes_spelling, packed, Adds, AddsPacked};

use crate::packing::pack;
use crate::varints::push_varint;
use orc_proto::laws::varints_are_read;
use std::alloc::{AllocError, Global};

/// The message with one field more, a number.
///
/// The field's number is 1 to 536,870,911. A refused call gives the message up.
///
/// Source: the protobuf wire format, "Message Structure".
pub fn push_number(message: Vec<u8>, field: u32, number: u64) -> Result<Vec<u8>, AllocError>
    requires at_least_one { 1 ≤ field }
    requires at_most { field ≤ 536870911 }
    ensures written { IfOk result (λ after. after.items ≡ message.items ++ number_spelling field number) }
    ensures field { IfOk result (λ after. Adds message.items after.items field (VARINT number)) }
{
    varints_are_read();
    let keyed = push_varint(message, 8 * (field as u64))?;
    push_varint(keyed, number)
}

/// The message with one field more, bytes: a text, or a message that lies in the message.
///
/// The field's number is 1 to 536,870,911. A refused call gives the message up.
///
/// Source: the protobuf wire format, "Length-Delimited Records".
pub fn push_bytes(message: Vec<u8>, field: u32, bytes: &[u8]) -> Result<Vec<u8>, AllocError>
    requires at_least_one { 1 ≤ field }
    requires at_most { field ≤ 536870911 }
    ensures written { IfOk result (λ after. after.items ≡ message.items ++ bytes_spelling field bytes.now) }
    ensures field { IfOk result (λ after. Adds message.items after.items field (LEN bytes.now)) }
{
    varints_are_read();
    let keyed = push_varint(message, 8 * (field as u64) + 2)?;
    let mut counted = push_varint(keyed, bytes.len() as u64)?;
    counted.extend_from_slice(bytes)?;
    Ok(counted)
}

/// The message with one field more, numbers that are packed.
///
/// The field's number is 1 to 536,870,911. A refused call gives the message up.
///
/// Source: the protobuf wire format, "Packed Repeated Fields".
pub fn push_packed(
    alloc: Global,
    message: Vec<u8>,
    field: u32,
    numbers: &[u64],
) -> Result<Vec<u8>, AllocError>
    requires at_least_one { 1 ≤ field }
    requires at_most { field ≤ 536870911 }
    ensures written { IfOk result (λ after. after.items ≡ message.items ++ bytes_spelling field (packed numbers.now)) }
    ensures field { IfOk result (λ after. AddsPacked message.items after.items field numbers.now) }
{
    let bytes = pack(alloc, numbers)?;
    push_bytes(message, field, &bytes)
}
