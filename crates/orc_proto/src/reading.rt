//! Reading one field from the front of bytes.
//!
//! Each step gives what it read and the bytes that follow. `offset` is the offset of the field's key, and is
//! for a fault alone.

ghost use Rattle.std.specs.Prelude.{◌≡◌};
ghost use Rattle.orc_proto.specs.Message.{entry_of, content_of};
ghost use Rattle.orc_proto.specs.Reading.{Gives, bytes_at, number_at, content_at, field_at};

use crate::fault::WireFault;
use crate::field::{Field, FieldValue};
use crate::varint::read_varint;

/// The greatest number of a field.
const GREATEST_NUMBER: u64 = 536_870_911;

/// The field at the front of `bytes` and what follows it. `offset` is for a fault alone.
#[tactic(auto, unfolding(crate::specs::Reading::field_at))]
pub(crate) fn read_field(offset: u64, bytes: &[u8]) -> Result<(Field<'_>, &[u8]), WireFault>
    ensures { Gives (λ x. (entry_of x.0, x.1.now)) result (field_at offset bytes.now) }
{
    let (key, rest) = read_varint(offset, bytes)?;
    let number = read_number(offset, key / 8)?;
    let (value, rest) = read_value(offset, key % 8, rest)?;
    Ok((Field { number, value }, rest))
}

/// A field's number, which is the key without its wire type.
#[tactic(auto, unfolding(crate::specs::Reading::number_at))]
fn read_number(offset: u64, number: u64) -> Result<u32, WireFault>
    ensures { Gives (λ n. n) result (number_at offset number) }
{
    if number == 0 || number > GREATEST_NUMBER {
        return Err(WireFault::BadKey(offset));
    }
    Ok(number as u32)
}

/// The value of a field at the front of `bytes` and what follows it.
#[tactic(auto, unfolding(crate::specs::Reading::content_at))]
fn read_value(
    offset: u64,
    wire_type: u64,
    bytes: &[u8],
) -> Result<(FieldValue<'_>, &[u8]), WireFault>
    ensures { Gives (λ x. (content_of x.0, x.1.now)) result (content_at offset wire_type bytes.now) }
{
    match wire_type {
        0 => {
            let (number, rest) = read_varint(offset, bytes)?;
            Ok((FieldValue::Varint(number), rest))
        }
        1 => {
            let (eight, rest) = read_array(offset, bytes)?;
            Ok((FieldValue::Eight(eight), rest))
        }
        2 => {
            let (len, rest) = read_varint(offset, bytes)?;
            let (text, rest) = read_bytes(offset, len, rest)?;
            Ok((FieldValue::Bytes(text), rest))
        }
        5 => {
            let (four, rest) = read_array(offset, bytes)?;
            Ok((FieldValue::Four(four), rest))
        }
        _ => Err(WireFault::BadWireType(offset)),
    }
}

/// The first `N` bytes and what follows them.
#[tactic(auto, unfolding(crate::specs::Reading::bytes_at))]
fn read_array<const N: usize>(offset: u64, bytes: &[u8]) -> Result<([u8; N], &[u8]), WireFault>
    ensures { Gives (λ x. (x.0, x.1.now)) result (bytes_at N offset bytes.now) }
{
    match bytes.split_first_chunk::<N>() {
        Some((front, rest)) => Ok((*front, rest)),
        None => Err(WireFault::Truncated(offset)),
    }
}

/// The first `count` bytes and what follows them.
#[tactic(auto, unfolding(crate::specs::Reading::bytes_at))]
fn read_bytes(offset: u64, count: u64, bytes: &[u8]) -> Result<(&[u8], &[u8]), WireFault>
    ensures { Gives (λ x. (x.0.now, x.1.now)) result (bytes_at count offset bytes.now) }
{
    if count > bytes.len() as u64 {
        return Err(WireFault::Truncated(offset));
    }
    Ok(bytes.split_at(count as usize))
}
