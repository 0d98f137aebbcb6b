//! Values of equal steps.
ghost use Rattle.std.specs.Prelude.{◌≡◌, ◌≤◌, ◌<◌, length, take, slice_index_or, pos, ◌≢◌, ◌*ℤ◌};
ghost use Rattle.std.specs.Int.{cast_signed, w64};
ghost use Rattle.orc_integers.specs.Integers.{ramp, wrapped_sum};

use crate::number::bits_of_value;

/// How far the second value is above the first, as 64 bits of a sum that wraps; 0 where there is no second.
pub fn first_step(values: &[i64]) -> u64
    ensures none { length values.now < 2 → result ≡ 0 }
    ensures second { 2 ≤ length values.now →
        slice_index_or values.now 1 (pos 0) ≡ wrapped_sum (slice_index_or values.now 0 (pos 0)) (cast_signed w64 result) }
{
    if values.len() < 2 {
        return 0;
    }
    let first = bits_of_value(&values[0]);
    bits_of_value(&values[1]).wrapping_sub(first)
}

/// How many of the first values are each a step above the one before, and so many at most. Sums wrap at 64 bits.
pub fn ramp_len(values: &[i64], step: u64, most: usize) -> usize
    requires { 0 < length values.now }
    ensures within { result ≤ length values.now }
    ensures most { result ≤ most }
    ensures stops { result < length values.now → result < most →
        slice_index_or values.now result (pos 0)
        ≢ wrapped_sum (slice_index_or values.now 0 (pos 0)) (pos result *ℤ cast_signed w64 step) }
    ensures ramp { take result values.now ≡ ramp (slice_index_or values.now 0 (pos 0)) (cast_signed w64 step) result }
{
    let mut next = bits_of_value(&values[0]);
    let mut len = 0;
    while len < values.len() && len < most && bits_of_value(&values[len]) == next {
        next = next.wrapping_add(step);
        len += 1;
    }
    len
}
