//! The total of the numbers of rows that pass, in 128 bits, which hold the sum of 2^64 numbers of 64 bits: so a running total never
//! decides.
ghost use Rattle.std.specs.Prelude.{◌≡◌, ◌+◌, ◌^◌, ◌<◌, pos, length, get_or, false, if◌then◌else◌, FitsSigned};
ghost use Rattle.std.specs.Int.{w64};
ghost use Rattle.std.specs.List.{list_any};
ghost use Rattle.orc_values.specs.Woven.{present_count};
ghost use Rattle.batch_masks.specs.Kept.{kept};
ghost use Rattle.batch_masks.specs.Totals.{numbers_in, plus_all, with_numbers, SumOfFew};

use crate::moves::gather;
use orc_values::{Column, ColumnValues};

/// A total of numbers, and whether there is one.
#[derive(Clone, Copy, Drop)]
pub struct Total {
    /// Whether there is a number.
    pub some: bool,
    /// The sum of the numbers, 0 where there is none.
    pub sum: i128,
}

/// A total with the numbers more of those rows of a column whose flag is set; values that aren't numbers don't count.
///
/// The mask has a flag for each row, and is used up. `given` is how many numbers the total has at most.
pub fn with_kept(total: Total, given: u64, mask: &mut [bool], column: &Column) -> Total
    requires rows { length mask.old ≡ length column.now }
    requires few { given + length column.now < 2 ^ 63 }
    requires bound { SumOfFew given total.sum }
    ensures total { result ≡ with_numbers total (numbers_in (kept mask.old column.now)) }
    ensures bound { SumOfFew (given + length column.now) result.sum }
{
    match column.values() {
        ColumnValues::Ints(numbers) => {
            with_numbers_kept(total, given, mask, column.present(), numbers)
        }
        ColumnValues::Bools(_) => total,
        ColumnValues::Texts(_) => total,
        ColumnValues::Chosen(_) => total,
    }
}

/// The same of a column of numbers.
fn with_numbers_kept(
    total: Total,
    given: u64,
    mask: &mut [bool],
    present: &[bool],
    numbers: &[i64],
) -> Total
    requires rows { length mask.old ≡ length present.now }
    requires count { length numbers.now ≡ present_count present.now }
    requires few { given + length numbers.now < 2 ^ 63 }
    requires bound { SumOfFew given total.sum }
    ensures total { result ≡ with_numbers total (kept (kept present.now mask.old) numbers.now) }
    ensures bound { SumOfFew (given + length numbers.now) result.sum }
{
    gather(mask, present, numbers.len());
    let (front, _) = mask.split_at(numbers.len());
    Total {
        some: total.some | any_set(front),
        sum: sum_kept(total.sum, given, front, numbers),
    }
}

/// A sum with those numbers more whose flag is set.
fn sum_kept(sum: i128, given: u64, mask: &[bool], numbers: &[i64]) -> i128
    requires rows { length mask.now ≡ length numbers.now }
    requires few { given + length numbers.now < 2 ^ 63 }
    requires bound { SumOfFew given sum }
    ensures sum { result ≡ plus_all sum (kept mask.now numbers.now) }
    ensures bound { SumOfFew (given + length numbers.now) result }
{
    let mut now = sum;
    for place in 0..numbers.len() {
        now += i128::from(number_kept(mask, numbers, place));
    }
    now
}

/// A number whose flag is set, and 0 in place of another.
fn number_kept(mask: &[bool], numbers: &[i64], place: usize) -> i64
    requires rows { length mask.now ≡ length numbers.now }
    requires place { place < length numbers.now }
    ensures value { result ≡ if get_or mask.now place false then get_or numbers.now place (pos 0) else pos 0 }
    ensures fits { FitsSigned w64 result }
{
    if mask[place] { numbers[place] } else { 0 }
}

/// Whether a flag is set.
fn any_set(mask: &[bool]) -> bool
    ensures { result ≡ list_any (λ flag. flag) mask.now }
{
    mask.iter().any(|flag| *flag)
}
