//! How far values are from one another.
ghost use Rattle.std.specs.Prelude.{◌≡◌, ◌+◌, length, map, slice_index_or, pos};
ghost use Rattle.std.specs.Int.{cast_signed, w64};
ghost use Rattle.orc_integers.specs.Integers.{wrapped_sum};
ghost use Rattle.orc_rle2.specs.Integers.{sums, with_sign};

use rle_writer::bits_of_value;

/// How far a value is from the one before, in the direction of a step. Differences wrap at 64 bits, so one against the
/// direction is large.
pub(crate) fn distance(step: u64, before: &i64, value: &i64) -> u64
    ensures { wrapped_sum before.now (with_sign (cast_signed w64 step) result) ≡ value.now }
{
    let before = bits_of_value(before);
    let value = bits_of_value(value);
    if step < 1 << 63 {
        value.wrapping_sub(before)
    } else {
        before.wrapping_sub(value)
    }
}

/// Writes to `into`, which has room for just these, how far each value but the first is from the one before, in the
/// direction of a step.
pub(crate) fn write_distances(step: u64, values: &[i64], into: &mut [u64])
    requires { length into.old + 1 ≡ length values.now }
    ensures { sums (slice_index_or values.now 0 (pos 0)) (map (with_sign (cast_signed w64 step)) into.new) ≡ values.now }
{
    for i in 0..into.len() {
        into[i] = distance(step, &values[i], &values[i + 1]);
    }
}
