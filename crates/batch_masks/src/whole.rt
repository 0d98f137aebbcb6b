//! The total of all numbers of a column: in 64 bits where they are small, and else in 128.
ghost use Rattle.std.specs.Prelude.{◌≡◌, ◌+◌, ◌-◌, ◌+ℤ◌, ◌*◌, ◌^◌, ◌<◌, ◌≤◌, pos, length, FitsSigned, IfSome};
ghost use Rattle.std.specs.Int.{w64, w128};
ghost use Rattle.batch_masks.specs.Totals.{numbers_in, plus_all, with_numbers, SumOfFew};

use crate::narrow::number_at;
use crate::total::Total;
use orc_values::{Column, ColumnValues};

/// How far from 0 a small number is at most.
const FAR: u64 = 1 << 52;

/// How many small numbers are summed in 64 bits at most.
const FEW: usize = 1024;

/// A total with all numbers more of a column; values that aren't numbers don't count.
///
/// `given` is how many numbers the total has at most.
pub fn with_all(total: Total, given: u64, column: &Column) -> Total
    requires few { given + length column.now < 2 ^ 63 }
    requires bound { SumOfFew given total.sum }
    ensures total { result ≡ with_numbers total (numbers_in column.now) }
    ensures bound { SumOfFew (given + length column.now) result.sum }
{
    match column.values() {
        ColumnValues::Ints(numbers) => with_each(total, given, numbers),
        ColumnValues::Bools(_) => total,
        ColumnValues::Texts(_) => total,
        ColumnValues::Chosen(_) => total,
    }
}

/// A total with numbers more.
fn with_each(total: Total, given: u64, numbers: &[i64]) -> Total
    requires few { given + length numbers.now < 2 ^ 63 }
    requires bound { SumOfFew given total.sum }
    ensures total { result ≡ with_numbers total numbers.now }
    ensures bound { SumOfFew (given + length numbers.now) result.sum }
{
    Total {
        some: total.some | !numbers.is_empty(),
        sum: sum_all(total.sum, given, numbers),
    }
}

/// A sum with numbers more.
fn sum_all(sum: i128, given: u64, numbers: &[i64]) -> i128
    requires few { given + length numbers.now < 2 ^ 63 }
    requires bound { SumOfFew given sum }
    ensures sum { result ≡ plus_all sum numbers.now }
    ensures bound { SumOfFew (given + length numbers.now) result }
    ensures fits { FitsSigned w128 result }
{
    if numbers.len() <= FEW {
        if let Some(few) = sum_of_small(numbers) {
            return with_few(sum, given, numbers, few);
        }
    }
    sum_wide(sum, given, numbers)
}

/// A sum with numbers more, of which the sum is known.
fn with_few(sum: i128, given: u64, numbers: &[i64], few: i64) -> i128
    requires few { given + length numbers.now < 2 ^ 63 }
    requires bound { SumOfFew given sum }
    requires known { few ≡ plus_all (pos 0) numbers.now }
    requires within { SumOfFew (length numbers.now) few }
    requires fits { FitsSigned w64 few }
    ensures sum { result ≡ plus_all sum numbers.now }
    ensures bound { SumOfFew (given + length numbers.now) result }
    ensures fits { FitsSigned w128 result }
{
    sum + i128::from(few)
}

/// The same of any numbers.
fn sum_wide(sum: i128, given: u64, numbers: &[i64]) -> i128
    requires few { given + length numbers.now < 2 ^ 63 }
    requires bound { SumOfFew given sum }
    ensures sum { result ≡ plus_all sum numbers.now }
    ensures bound { SumOfFew (given + length numbers.now) result }
    ensures fits { FitsSigned w128 result }
{
    let mut now = sum;
    for row in 0..numbers.len() {
        now += i128::from(number_at(numbers, row));
    }
    now
}

/// The sum of few numbers, if all are small, and else `None`.
///
/// Each is made positive by `FAR`, so that one sum in 64 bits and one bit tell both: whether all are small, and what they come to.
fn sum_of_small(numbers: &[i64]) -> Option<i64>
    requires short { length numbers.now ≤ 1024 }
    ensures sum { IfSome result (λ sum. sum ≡ plus_all (pos 0) numbers.now) }
    ensures bound { IfSome result (λ sum. SumOfFew (length numbers.now) sum) }
    ensures fits { IfSome result (FitsSigned w64) }
{
    let mut seen = 0u64;
    let mut sum = 0u64;
    for number in numbers {
        let above = number.cast_unsigned().wrapping_add(FAR);
        seen |= above;
        sum = sum.wrapping_add(above);
    }
    if seen >= 2 * FAR {
        return None;
    }
    Some(without_far(sum, numbers.len()))
}

/// What a sum of so many numbers is without the `FAR` of each.
fn without_far(sum: u64, count: usize) -> i64
    requires few { count ≤ 1024 }
    requires below { sum ≤ (2 ^ 53 - 1) * count }
    ensures value { result +ℤ pos (2 ^ 52 * count) ≡ pos sum }
    ensures fits { FitsSigned w64 result }
{
    sum as i64 - (FAR * count as u64) as i64
}
