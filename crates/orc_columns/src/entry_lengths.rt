//! The lengths of the entries of a dictionary.
ghost use Rattle.std.specs.Prelude.{◌≡◌, ◌+◌, ◌≤◌, ◌++◌, [], length, drop, None, OnOk, IfErr};
ghost use Rattle.outside.specs.Reading.{placed};
ghost use Rattle.orc_columns.specs.declared.plan.ColumnPlan.{ColumnPlan};
ghost use Rattle.orc_columns.specs.Batches.{HoldsNoRead, LengthsGoOn, LengthsBreak};
ghost use Rattle.orc_columns.specs.Draws.{StreamsDiffer, Draws};
ghost use Rattle.orc_columns.specs.Turns.{alone};

use crate::fault::ColumnFault;
use crate::fills::fill_lengths;
use crate::integers::Integers;
use outside::Feed;
use row_flags::BATCH;

/// Adds so many lengths, a batch at a time: memory is asked for those alone that the stream spells.
pub(crate) fn push_all_lengths<F: Feed>(
    integers: &mut Integers,
    feed: &mut F,
    into: &mut Vec<i64>,
    count: u64,
) -> Result<(), ColumnFault>
    requires none { into.old.items ≡ [] }
    ensures len { OnOk result (length into.new.items ≡ count) }
    ensures no_read { IfErr result HoldsNoRead }
    ensures draws { (plan : ColumnPlan) → StreamsDiffer plan → integers.old.stream ≡ plan.length → integers.old.fault ≡ None →
        Draws F.rest F.fed F.fault_count plan (alone plan.length) feed.old feed.new
        (LengthsGoOn integers.old integers.new) (LengthsBreak integers.old count) (placed into.new.items result) }
{
    let mut open = count;
    while open > 0 {
        let asked = open.min(BATCH as u64);
        push_lengths(integers, feed, into, asked as usize)?;
        open -= asked;
    }
    Ok(())
}

/// Adds the next lengths.
fn push_lengths<F: Feed>(
    integers: &mut Integers,
    feed: &mut F,
    into: &mut Vec<i64>,
    count: usize,
) -> Result<(), ColumnFault>
    requires { count ≤ 1024 }
    ensures stream { integers.new.stream ≡ integers.old.stream }
    ensures version { integers.new.version ≡ integers.old.version }
    ensures signed { integers.new.signed ≡ integers.old.signed }
    ensures whole { integers.old.fault ≡ None → OnOk result (integers.new.fault ≡ None) }
    ensures len { OnOk result (length into.new.items ≡ length into.old.items + count) }
    ensures kept { OnOk result (into.new.items ≡ into.old.items ++ drop (length into.old.items) into.new.items) }
    ensures no_read { IfErr result HoldsNoRead }
    ensures draws { (plan : ColumnPlan) → StreamsDiffer plan → integers.old.stream ≡ plan.length → integers.old.fault ≡ None →
        Draws F.rest F.fed F.fault_count plan (alone plan.length) feed.old feed.new
        (LengthsGoOn integers.old integers.new) (LengthsBreak integers.old count)
        (placed (drop (length into.old.items) into.new.items) result) }
{
    let mut lengths = [0; BATCH];
    fill_lengths(integers, feed, &mut lengths, count)?;
    let (front, _) = lengths.split_at(count);
    into.extend_from_slice(front)?;
    Ok(())
}
