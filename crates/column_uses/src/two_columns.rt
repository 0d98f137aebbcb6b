//! Two columns of a stripe, read side by side.
ghost use Rattle.std.specs.Prelude.{◌≡◌, ◌≤◌, length, None, OnOk};
ghost use Rattle.orc_columns.specs.Laws.{Apart};
ghost use Rattle.column_uses.specs.Together.{TakesOfBoth, TakesOfBothTwice, BothGoOn, BothGoOnTwice, HasRows};

use orc_columns::laws::{takes_in_turn_join, takes_leave_other_streams};
use orc_columns::{Column, ColumnFault, ColumnReader};
use outside::Feed;
use std::alloc::Global;

/// A batch of each of two columns.
#[derive(Drop)]
pub struct Pair {
    /// The rows of the first column.
    pub one: Column,
    /// The rows of the second.
    pub two: Column,
}

/// Gives the next rows of one column and then those of another, at most 1,024, in place of those of `out`.
///
/// The columns have no stream in common, and neither has answered a fault. Its takes are those of the first column's streams
/// in turn, and then those of the second's. A fault is that of one of the two.
pub fn batch_of_each<F: Feed>(
    alloc: Global,
    feed: &mut F,
    one: &mut ColumnReader,
    two: &mut ColumnReader,
    rows: u32,
    out: &mut Pair,
) -> Result<(), ColumnFault>
    requires few { rows ≤ 1024 }
    requires apart { Apart one.old.plan two.old.plan }
    requires fresh { (one.old.fault ≡ None) × (two.old.fault ≡ None) }
    ensures plans { (one.new.plan ≡ one.old.plan) × (two.new.plan ≡ two.old.plan) }
    ensures fresh { OnOk result ((one.new.fault ≡ None) × (two.new.fault ≡ None)) }
    ensures rows { OnOk result (HasRows rows out.new) }
    ensures takes { TakesOfBoth F.fed one.old.plan two.old.plan feed.old feed.new }
    ensures goes { OnOk result (BothGoOn F.rest one.old one.new two.old two.new feed.old feed.new out.new) }
{
    takes_in_turn_join();
    takes_leave_other_streams::<F>();
    one.next_batch(alloc, feed, rows, &mut out.one)?;
    two.next_batch(alloc, feed, rows, &mut out.two)
}

/// Gives two batches of each of two columns, side by side.
///
/// Its takes are one list: the first column's streams in turn, the second's, and then the same again.
pub fn two_batches_of_each<F: Feed>(
    alloc: Global,
    feed: &mut F,
    one: &mut ColumnReader,
    two: &mut ColumnReader,
    rows: u32,
    first: &mut Pair,
    second: &mut Pair,
) -> Result<(), ColumnFault>
    requires few { rows ≤ 1024 }
    requires apart { Apart one.old.plan two.old.plan }
    requires fresh { (one.old.fault ≡ None) × (two.old.fault ≡ None) }
    ensures rows { OnOk result (HasRows rows first.new × HasRows rows second.new) }
    ensures takes { TakesOfBothTwice F.fed one.old.plan two.old.plan feed.old feed.new }
    ensures goes { OnOk result (BothGoOnTwice F.rest one.old one.new two.old two.new feed.old feed.new first.new second.new) }
{
    takes_in_turn_join();
    batch_of_each(alloc, feed, one, two, rows, first)?;
    batch_of_each(alloc, feed, one, two, rows, second)
}
