//! The rows of a stripe, batch by batch.
ghost use Rattle.std.specs.Prelude.{◌≡◌, length, IfErr};
ghost use Rattle.orc_columns.specs.Batches.{HoldsNoRead};
ghost use Rattle.orc_batches.specs.Batches.{plans_of, kinds_of, AllApart, AllFresh};
ghost use Rattle.orc_batches.specs.Walk.{Walked};

use crate::batches::next_batches;
use crate::consumer::Consumer;
use orc_columns::laws::takes_in_turn_join;
use orc_columns::{Column, ColumnFault, ColumnReader};
use outside::Feed;
use std::alloc::Global;

/// How many rows a batch has, but for the last.
const BATCH: u64 = 1024;

/// Gives so many rows of all columns to a consumer: 1,024 at once, and in the last batch those that are left.
///
/// No two of the columns have a stream in common, and none has answered a fault; `batches` has a batch for each of them, whose
/// memory is used. The columns are of the kinds that the consumer takes.
///
/// A fault is that of one of the columns, in as many rows as were asked for so far: the consumer has taken the batches before it.
/// It needn't be that of the stripe, since a column in front of it may fail some batches later. `Read` comes only where the feed
/// failed in this call, and `NoMemory` where memory was refused, here or by the consumer.
pub fn give_rows<F: Feed, C: Consumer>(
    alloc: Global,
    feed: &mut F,
    rows: u64,
    readers: &mut [ColumnReader],
    batches: &mut [Column],
    consumer: &mut C,
) -> Result<(), ColumnFault>
    requires beside { length readers.old ≡ length batches.old }
    requires apart { AllApart (plans_of readers.old) }
    requires fresh { AllFresh readers.old }
    requires kinds { C.kinds consumer.old ≡ kinds_of (plans_of readers.old) }
    ensures plans { plans_of readers.new ≡ plans_of readers.old }
    ensures beside { length batches.new ≡ length batches.old }
    ensures no_read { IfErr result HoldsNoRead }
    ensures walked { Walked F.rest F.fed F.fault_count C.ate rows feed.old feed.new
        consumer.old consumer.new readers.old readers.new result }
{
    takes_in_turn_join();
    let mut given = 0;
    while given < rows {
        let more = (rows - given).min(BATCH) as u32;
        match next_batches(alloc, feed, more, readers, batches) {
            Ok(()) => {}
            Err(fault) => return Err(fault),
        }
        match consumer.batch(more, batches) {
            Ok(()) => {}
            Err(_) => return Err(ColumnFault::NoMemory),
        }
        given += u64::from(more);
    }
    Ok(())
}
