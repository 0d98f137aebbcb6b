//! The numbers that stand for values.
ghost use Rattle.std.specs.Prelude.{◌≡◌};
ghost use Rattle.std.specs.Int.{cast_signed, w64};
ghost use Rattle.orc_integers.specs.Integers.{integer};

/// The number that stands for a value: in a signed stream zigzag, and else the value's 64 bits.
///
/// Source: Apache ORC specification v1, "Integer Run Length Encoding, version 1".
pub fn number_of(signed: bool, value: &i64) -> u64
    ensures { integer signed result ≡ value.now }
{
    number_of_bits(signed, bits_of_value(value))
}

/// The 64 bits of a value.
pub fn bits_of_value(value: &i64) -> u64
    ensures { cast_signed w64 result ≡ value.now }
{
    let value = *value;
    value.cast_unsigned()
}

/// The number that stands for a value, which is given as its 64 bits, as `number_of` says.
pub fn number_of_bits(signed: bool, bits: u64) -> u64
    ensures { integer signed result ≡ cast_signed w64 bits }
{
    if !signed {
        return bits;
    }
    if bits <= u64::MAX / 2 {
        2 * bits
    } else {
        2 * (u64::MAX - bits) + 1
    }
}
