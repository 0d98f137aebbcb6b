//! The numbers that stand for values, side by side.
ghost use Rattle.std.specs.Prelude.{◌≡◌, ◌^◌, ◌<◌, ◌≤◌, ℕ, length, map, slice_index};
ghost use Rattle.orc_integers.specs.Integers.{integer};

use rle_writer::number_of;

/// Writes the numbers that stand for these values to `into`, which has room for just these.
pub(crate) fn write_numbers(signed: bool, values: &[i64], into: &mut [u64])
    requires { length into.old ≡ length values.now }
    ensures { map (integer signed) into.new ≡ values.now }
{
    for (i, value) in values.iter().enumerate() {
        into[i] = number_of(signed, value);
    }
}

/// Does nothing. That the numbers of a slice fit 64 bits is known where it is lent.
pub(crate) fn numbers_fit(numbers: &[u64])
    ensures { (k : ℕ) → slice_index numbers.now k < 2 ^ 64 }
{}

/// The greatest of these numbers, or 0.
pub(crate) fn greatest(numbers: &[u64]) -> u64
    ensures { (k : ℕ) → slice_index numbers.now k ≤ result }
{
    let mut most = 0;
    for number in numbers {
        if *number > most {
            most = *number;
        }
    }
    most
}

/// The greatest of the numbers that stand for these values, or 0.
pub(crate) fn greatest_of(signed: bool, values: &[i64]) -> u64 {
    let mut most = 0;
    for value in values {
        let number = number_of(signed, value);
        if number > most {
            most = number;
        }
    }
    most
}
