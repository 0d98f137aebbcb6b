//! The lengths of texts.
ghost use Rattle.std.specs.Prelude.{◌≡◌, ◌+◌, ◌<◌, ◌≤◌, false, length, map, sum, take, unsigned_abs, None, All};
ghost use Rattle.std.specs.Prelude.{Contains, MatchOption, OnOk, IfOk, IfErr, IsTrue, IsFalse, ℤ};
ghost use Rattle.std.specs.Int.{IsNonNegative};
ghost use Rattle.outside.specs.Reading.{placed};
ghost use Rattle.orc_columns.specs.declared.plan.ColumnPlan.{ColumnPlan};
ghost use Rattle.orc_columns.specs.Batches.{HoldsNoRead, LengthsGoOn, LengthsRefuse, TotalOf, AreRefused};
ghost use Rattle.orc_columns.specs.Column.{IsNegative};
ghost use Rattle.orc_columns.specs.Draws.{StreamsDiffer, Draws};
ghost use Rattle.orc_columns.specs.Turns.{alone};

use crate::fault::ColumnFault;
use crate::fills::fill_lengths;
use crate::integers::Integers;
use outside::Feed;
use row_texts::{has_negative, room_after};

/// Gives the next lengths of texts, and answers how many bytes they are together, where there is room for so many.
///
/// A fault of a run of LENGTH comes before a negative length, and that before lengths that are too many bytes.
pub(crate) fn next_lengths<F: Feed>(
    lengths: &mut Integers,
    feed: &mut F,
    entries: &mut [i64],
    count: usize,
    room: u64,
) -> Result<u64, ColumnFault>
    requires { count ≤ length entries.old }
    ensures len { length entries.new ≡ length entries.old }
    ensures stream { lengths.new.stream ≡ lengths.old.stream }
    ensures version { lengths.new.version ≡ lengths.old.version }
    ensures signed { lengths.new.signed ≡ lengths.old.signed }
    ensures whole { lengths.old.fault ≡ None → OnOk result (lengths.new.fault ≡ None) }
    ensures total { IfOk result (TotalOf (take count entries.new) room) }
    ensures no_read { IfErr result HoldsNoRead }
    ensures draws { (plan : ColumnPlan) → StreamsDiffer plan → lengths.old.stream ≡ plan.length → lengths.old.signed ≡ false
        → lengths.old.fault ≡ None →
        Draws F.rest F.fed F.fault_count plan (alone plan.length) feed.old feed.new
        (LengthsGoOn lengths.old lengths.new) (LengthsRefuse lengths.old count room) (placed (take count entries.new) result) }
{
    fill_lengths(lengths, feed, entries, count)?;
    let (given, _) = entries.split_at(count);
    total_of(given, room)
}

/// How many bytes these lengths are together.
///
/// A negative length comes before lengths that are more bytes than there is room for.
pub(crate) fn total_of(lengths: &[i64], room: u64) -> Result<u64, ColumnFault>
    ensures total { IfOk result (TotalOf lengths.now room) }
    ensures refused { IfErr result (AreRefused lengths.now room) }
{
    if has_negative(lengths) {
        return Err(ColumnFault::NegativeLength);
    }
    match room_after(lengths, room) {
        Some(left) => Ok(room - left),
        None => Err(ColumnFault::LengthsPastData),
    }
}
