//! The base of a run, and the numbers above it.
ghost use Rattle.std.specs.Prelude.{◌≡◌, ◌*◌, ◌^◌, ◌<◌, ◌≤◌, length, pos, IfSome};
ghost use Rattle.std.specs.Int.{cast_signed, w64};
ghost use Rattle.orc_integers.specs.Integers.{wrapped_sum};
ghost use Rattle.orc_rle2.specs.Integers.{sign_magnitude};
ghost use Rattle.orc_rle2.specs.IntRun2.{above_base};

use crate::distances::distance;
use crate::widths::byte_len;
use rle_writer::bits_of_value;

/// A base as a number whose top bit is its sign and whose rest is its magnitude: in how many bytes, and the number. None for the
/// least value of 64 bits, whose magnitude has no room.
///
/// Source: Apache ORC specification v1, "Integer Run Length Encoding, version 2", patched base.
pub(crate) fn spelled_base(base: &i64) -> Option<(u32, u64)>
    ensures len { IfSome result (λ spelled. (0 < spelled.0) × (spelled.0 ≤ 8)) }
    ensures fits { IfSome result (λ spelled. spelled.1 < 2 ^ (8 * spelled.0)) }
    ensures base { IfSome result (λ spelled. sign_magnitude (8 * spelled.0) spelled.1 ≡ base.now) }
{
    let bits = bits_of_value(base);
    if bits < 1 << 63 {
        return Some((byte_len(2 * bits), bits));
    }
    if bits == 1 << 63 {
        return None;
    }
    let magnitude = 0u64.wrapping_sub(bits);
    let len = byte_len(2 * magnitude);
    Some((len, magnitude + (1 << (8 * len - 1))))
}

/// Writes to `into`, which has room for just these, how far each value is above a base, in a sum that wraps at 64 bits.
pub(crate) fn write_above(base: &i64, values: &[i64], into: &mut [u64])
    requires { length into.old ≡ length values.now }
    ensures { above_base base.now into.new ≡ values.now }
{
    for (i, value) in values.iter().enumerate() {
        into[i] = above(base, value);
    }
}

/// How far a value is above a base, in a sum that wraps at 64 bits.
pub(crate) fn above(base: &i64, value: &i64) -> u64
    ensures { wrapped_sum base.now (pos result) ≡ value.now }
{
    distance(0, base, value)
}
