//! Sums that wrap at 64 bits, made in place of the numbers that they are made from.
ghost use Rattle.std.specs.Prelude.{◌≡◌, ◌+◌, ◌^◌, ◌*◌, ◌<◌, ◌≤◌, ◌∷◌, map};
ghost use Rattle.std.specs.Int.{cast_signed, w64};
ghost use Rattle.orc_integers.specs.Integers.{wrapped_sum};
ghost use Rattle.orc_rle2.specs.Integers.{bits_in, sign_magnitude, with_sign, sums};
ghost use Rattle.orc_rle2.specs.IntRun2.{above_base};

/// The 64 bits of the value of a number of so many bytes whose top bit is its sign.
pub fn sign_magnitude(len: u32, number: u64) -> u64
    requires some { 0 < len }
    requires most { len ≤ 8 }
    requires within { number < 2 ^ (8 * len) }
    ensures { cast_signed w64 result ≡ sign_magnitude (8 * len) number }
{
    let sign = 1 << (8 * len - 1);
    if number < sign {
        number
    } else {
        0u64.wrapping_sub(number - sign)
    }
}

/// Adds a base to each number.
pub fn add_base(base: u64, numbers: &mut [i64])
    ensures { numbers.new ≡ above_base (cast_signed w64 base) (bits_in numbers.old) }
{
    for number in numbers.iter_mut() {
        *number = base.wrapping_add(number.cast_unsigned()).cast_signed();
    }
}

/// Makes each magnitude the sum of the value before it and of the magnitude with the sign of a delta. The first
/// follows this value.
pub fn add_steps(value: u64, delta: u64, magnitudes: &mut [i64])
    ensures { cast_signed w64 value ∷ magnitudes.new
        ≡ sums (cast_signed w64 value) (map (with_sign (cast_signed w64 delta)) (bits_in magnitudes.old)) }
{
    let mut next = value;
    for magnitude in magnitudes.iter_mut() {
        next = stepped(next, delta, magnitude.cast_unsigned());
        *magnitude = next.cast_signed();
    }
}

/// A value and a magnitude that has the sign of a delta, of which 0 counts as positive.
fn stepped(value: u64, delta: u64, magnitude: u64) -> u64
    ensures { cast_signed w64 result ≡ wrapped_sum (cast_signed w64 value) (with_sign (cast_signed w64 delta) magnitude) }
{
    if delta < 1 << 63 {
        value.wrapping_add(magnitude)
    } else {
        value.wrapping_sub(magnitude)
    }
}
