//! What the numbers of a stream stand for.
ghost use Rattle.std.specs.Prelude.{◌≡◌, ◌^◌, ◌<◌, length, map};
ghost use Rattle.std.specs.Int.{cast_signed, w64};
ghost use Rattle.orc_integers.specs.Integers.{integer};

/// The 64 bits of the value that a number stands for: in a signed stream zigzag, and else the number.
pub fn bits_of(signed: bool, number: u64) -> u64
    ensures { cast_signed w64 result ≡ integer signed number }
{
    if !signed {
        return number;
    }
    let half = number / 2;
    if number % 2 == 0 {
        half
    } else {
        u64::MAX - half
    }
}

/// Writes the values that these numbers stand for to `into`, which has room for just these.
pub fn write_integers(signed: bool, numbers: &[u64], into: &mut [i64])
    requires { length into.old ≡ length numbers.now }
    ensures { into.new ≡ map (integer signed) numbers.now }
{
    for (i, number) in numbers.iter().enumerate() {
        into[i] = bits_of(signed, *number).cast_signed();
    }
}
