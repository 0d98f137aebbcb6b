//! Numbers of seven bits a byte, the lowest first.

ghost use Rattle.std.specs.Prelude.{◌≡◌, ◌++◌, ◌≤◌, length, take, drop};
ghost use Rattle.orc_proto.specs.Varint.{SpellsVarint, shortest};
ghost use Rattle.orc_proto.specs.Reading.{Gives, varint_at};

use crate::fault::WireFault;

/// The most bytes of a varint.
const MOST_BYTES: u32 = 10;

/// The varint at the front of `bytes` and what follows it. `offset` is for a fault alone.
pub(crate) fn read_varint(offset: u64, bytes: &[u8]) -> Result<(u64, &[u8]), WireFault>
    ensures { Gives (λ x. (x.0, x.1.now)) result (varint_at offset bytes.now) }
{
    let mut value: u64 = 0;
    let mut rest = bytes;
    for group in 0..MOST_BYTES {
        let Some((&byte, after)) = rest.split_first() else {
            return Err(WireFault::Truncated(offset));
        };
        value = value.wrapping_add(((byte & 0x7f) as u64) << (7 * group));
        rest = after;
        if byte < 0x80 {
            return Ok((value, rest));
        }
    }
    Err(WireFault::LongVarint(offset))
}

/// How many bytes the shortest varint of `value` has: 1 to 10.
///
/// Source: the protobuf wire format, "Base 128 Varints".
pub fn varint_len(value: u64) -> usize
    ensures len { result ≡ length (shortest value) }
    ensures most { result ≤ 10 }
{
    if value < 0x80 {
        1
    } else {
        1 + varint_len(value / 0x80)
    }
}

/// Writes the shortest varint of `value` to the front of `into`, which has at least `varint_len(value)` bytes.
///
/// It answers how many bytes these are. The bytes behind them stay as they were.
///
/// Source: the protobuf wire format, "Base 128 Varints".
pub fn write_varint(value: u64, into: &mut [u8]) -> usize
    requires { length (shortest value) ≤ length into.old }
    ensures len { result ≡ length (shortest value) }
    ensures written { into.new ≡ shortest value ++ drop (length (shortest value)) into.old }
    ensures spelled { SpellsVarint (take result into.new) value }
{
    let Some((first, rest)) = into.split_first_mut() else {
        return 0;
    };
    if value < 0x80 {
        *first = value as u8;
        return 1;
    }
    *first = (value % 0x80) as u8 + 0x80;
    1 + write_varint(value / 0x80, rest)
}
