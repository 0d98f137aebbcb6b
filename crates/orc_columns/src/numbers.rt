//! The integers of a whole stream, seen by what judging a column asks of them.
ghost use Rattle.std.specs.Prelude.{◌≡◌, ◌<◌, ◌≤◌, ◌+◌, ◌*◌, ◌^◌, length, None, All, FitsSigned};
ghost use Rattle.std.specs.Int.{w64, cast_unsigned};
ghost use Rattle.orc_columns.specs.Numbers.{ReadsNumbers, total_from, bound_from};
ghost use Rattle.orc_columns.specs.Spelling.{IntRun, int_run};

use crate::integers::Integers;
use outside::{Feed, RunFault};
use row_flags::BATCH;

/// What judging a column asks of its integers, as unsigned numbers of 64 bits.
#[derive(Clone, Copy)]
pub(crate) struct Summary {
    /// Their sum.
    pub(crate) total: u128,
    /// One more than the greatest of them, or 0 where there is none.
    pub(crate) bound: u128,
}

/// Reads the next `count` integers.
///
/// Answers as `Integers::fill` does.
pub(crate) fn read_numbers<F: Feed>(
    feed: &mut F,
    integers: &mut Integers,
    count: u64,
) -> Result<Summary, RunFault>
    requires whole { integers.old.fault ≡ None }
    ensures { ReadsNumbers F.rest F.fed F.fault_count (IntRun integers.old.version integers.old.signed)
        (int_run integers.old.version integers.old.signed)
        integers.old.stream feed.old feed.new integers.old.held integers.new.held count result }
{
    let mut batch = [0; BATCH];
    let mut summary = Summary { total: 0, bound: 0 };
    let mut given = 0;
    while given < count {
        let asked = (count - given).min(BATCH as u64);
        let (out, _) = batch.split_at_mut(asked as usize);
        integers.fill(feed, out)?;
        summary = with_numbers(summary, given, out);
        given += asked;
    }
    Ok(summary)
}

/// The summary of some numbers, and then of others.
fn with_numbers(summary: Summary, given: u64, numbers: &[i64]) -> Summary
    requires total { summary.total ≤ given * 2 ^ 64 }
    requires bound { summary.bound ≤ 2 ^ 64 }
    requires few { given + length numbers.now < 2 ^ 64 }
    ensures total { result.total ≤ (given + length numbers.now) * 2 ^ 64 }
    ensures bound { result.bound ≤ 2 ^ 64 }
    ensures sum { result.total ≡ total_from summary.total numbers.now }
    ensures fit { All (FitsSigned w64) numbers.now }
    ensures most { result.bound ≡ bound_from summary.bound numbers.now }
{
    let mut total = summary.total;
    let mut bound = summary.bound;
    for number in numbers {
        let place = u128::from(place_of(number));
        total += place;
        bound = bound.max(place + 1);
    }
    Summary { total, bound }
}

/// A number as an unsigned one of 64 bits.
fn place_of(number: &i64) -> u64
    ensures place { result ≡ cast_unsigned w64 number.now }
    ensures fits { FitsSigned w64 number.now }
{
    let number = *number;
    number.cast_unsigned()
}
