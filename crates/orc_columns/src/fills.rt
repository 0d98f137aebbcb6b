//! Flags of rows, and values that aren't null, read to the front of a list.
ghost use Rattle.std.specs.Prelude.{◌≡◌, ◌≤◌, length, take, drop, None, OnOk, IfErr};
ghost use Rattle.outside.specs.Reading.{placed};
ghost use Rattle.orc_columns.specs.declared.plan.ColumnPlan.{ColumnPlan};
ghost use Rattle.orc_columns.specs.Batches.{HoldsNoRead, FlagsGoOn, FlagsBreak, NumbersGoOn, NumbersBreak, LengthsGoOn};
ghost use Rattle.orc_columns.specs.Batches.{LengthsBreak, BitsGoOn, BitsBreak};
ghost use Rattle.orc_columns.specs.Draws.{StreamsDiffer, Draws};
ghost use Rattle.orc_columns.specs.Turns.{alone};

use crate::fault::{ColumnFault, StreamName, of_run};
use crate::integers::Integers;
use outside::Feed;
use row_flags::{BitStream, Present};

/// Gives the flags of the next rows.
pub(crate) fn fill_flags<F: Feed>(
    present: &mut Present,
    feed: &mut F,
    flags: &mut [bool],
) -> Result<(), ColumnFault>
    ensures stream { present.new.stream ≡ present.old.stream }
    ensures whole { present.old.fault ≡ None → OnOk result (present.new.fault ≡ None) }
    ensures no_read { IfErr result HoldsNoRead }
    ensures draws { (plan : ColumnPlan) → StreamsDiffer plan → present.old.stream ≡ plan.present → present.old.fault ≡ None →
        Draws F.rest F.fed F.fault_count plan (alone plan.present) feed.old feed.new
        (FlagsGoOn present.old present.new) (FlagsBreak present.old (length flags.old)) (placed flags.new result) }
{
    match present.fill(feed, flags) {
        Ok(()) => Ok(()),
        Err(fault) => Err(of_run(StreamName::Present, fault)),
    }
}

/// Gives the next integers of DATA, and leaves the entries behind them.
pub(crate) fn fill_numbers<F: Feed>(
    integers: &mut Integers,
    feed: &mut F,
    entries: &mut [i64],
    count: usize,
) -> Result<(), ColumnFault>
    requires { count ≤ length entries.old }
    ensures len { length entries.new ≡ length entries.old }
    ensures behind { drop count entries.new ≡ drop count entries.old }
    ensures stream { integers.new.stream ≡ integers.old.stream }
    ensures version { integers.new.version ≡ integers.old.version }
    ensures signed { integers.new.signed ≡ integers.old.signed }
    ensures whole { integers.old.fault ≡ None → OnOk result (integers.new.fault ≡ None) }
    ensures no_read { IfErr result HoldsNoRead }
    ensures draws { (plan : ColumnPlan) → StreamsDiffer plan → integers.old.stream ≡ plan.body → integers.old.fault ≡ None →
        Draws F.rest F.fed F.fault_count plan (alone plan.body) feed.old feed.new
        (NumbersGoOn integers.old integers.new) (NumbersBreak integers.old count) (placed (take count entries.new) result) }
{
    let (front, _) = entries.split_at_mut(count);
    match integers.fill(feed, front) {
        Ok(()) => Ok(()),
        Err(fault) => Err(of_run(StreamName::Body, fault)),
    }
}

/// Gives the next integers of LENGTH, and leaves the entries behind them.
pub(crate) fn fill_lengths<F: Feed>(
    integers: &mut Integers,
    feed: &mut F,
    entries: &mut [i64],
    count: usize,
) -> Result<(), ColumnFault>
    requires { count ≤ length entries.old }
    ensures len { length entries.new ≡ length entries.old }
    ensures behind { drop count entries.new ≡ drop count entries.old }
    ensures stream { integers.new.stream ≡ integers.old.stream }
    ensures version { integers.new.version ≡ integers.old.version }
    ensures signed { integers.new.signed ≡ integers.old.signed }
    ensures whole { integers.old.fault ≡ None → OnOk result (integers.new.fault ≡ None) }
    ensures no_read { IfErr result HoldsNoRead }
    ensures draws { (plan : ColumnPlan) → StreamsDiffer plan → integers.old.stream ≡ plan.length → integers.old.fault ≡ None →
        Draws F.rest F.fed F.fault_count plan (alone plan.length) feed.old feed.new
        (LengthsGoOn integers.old integers.new) (LengthsBreak integers.old count) (placed (take count entries.new) result) }
{
    let (front, _) = entries.split_at_mut(count);
    match integers.fill(feed, front) {
        Ok(()) => Ok(()),
        Err(fault) => Err(of_run(StreamName::Length, fault)),
    }
}

/// Gives the next bits of DATA.
pub(crate) fn fill_bits<F: Feed>(
    bits: &mut BitStream,
    feed: &mut F,
    values: &mut [bool],
) -> Result<(), ColumnFault>
    ensures stream { bits.new.stream ≡ bits.old.stream }
    ensures whole { bits.old.fault ≡ None → OnOk result (bits.new.fault ≡ None) }
    ensures no_read { IfErr result HoldsNoRead }
    ensures draws { (plan : ColumnPlan) → StreamsDiffer plan → bits.old.stream ≡ plan.body → bits.old.fault ≡ None →
        Draws F.rest F.fed F.fault_count plan (alone plan.body) feed.old feed.new
        (BitsGoOn bits.old bits.new) (BitsBreak bits.old (length values.old)) (placed values.new result) }
{
    match bits.fill(feed, values) {
        Ok(()) => Ok(()),
        Err(fault) => Err(of_run(StreamName::Body, fault)),
    }
}
