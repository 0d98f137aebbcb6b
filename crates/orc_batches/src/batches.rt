//! A batch of all read columns of a stripe.
ghost use Rattle.std.specs.Prelude.{◌≡◌, ◌≤◌, length, OnOk, IfErr};
ghost use Rattle.outside.specs.Reading.{placed};
ghost use Rattle.orc_columns.specs.Batches.{HoldsNoRead};
ghost use Rattle.orc_batches.specs.Batch.{IsBatch};
ghost use Rattle.orc_batches.specs.Batches.{plans_of, kinds_of, AllApart, AllFresh, EachDraws};

use orc_columns::laws::{takes_in_turn_join, takes_leave_other_streams};
use orc_columns::{Column, ColumnFault, ColumnReader};
use outside::Feed;
use std::alloc::Global;

/// Gives the next rows of each column, at most 1,024, in place of those of its batch: the first reader's in the first, and so on.
///
/// No two of the columns have a stream in common, and none has answered a fault. All takes for the first column come first,
/// then those for the next, and so on; each column's are those of its streams in turn.
///
/// A fault is the first that a column answers, and then the columns behind it are left as they are. It needn't be that of the
/// stripe: a column in front may fail some batches later. `Read` comes only where the feed failed in this call, and `NoMemory`
/// where memory was refused. After a fault what the batches hold isn't promised.
pub fn next_batches<F: Feed>(
    alloc: Global,
    feed: &mut F,
    rows: u32,
    readers: &mut [ColumnReader],
    batches: &mut [Column],
) -> Result<(), ColumnFault>
    requires few { rows ≤ 1024 }
    requires beside { length readers.old ≡ length batches.old }
    requires apart { AllApart (plans_of readers.old) }
    requires fresh { AllFresh readers.old }
    ensures plans { plans_of readers.new ≡ plans_of readers.old }
    ensures beside { length batches.new ≡ length batches.old }
    ensures fresh { OnOk result (AllFresh readers.new) }
    ensures batch { OnOk result (IsBatch (kinds_of (plans_of readers.old)) rows batches.new) }
    ensures no_read { IfErr result HoldsNoRead }

    // Takes are column by column, and where they are told, each column's rows go on, or one of the columns fails.
    ensures draws { EachDraws F.rest F.fed F.fault_count rows feed.old feed.new readers.old readers.new (placed batches.new result) }
{
    takes_in_turn_join();
    takes_leave_other_streams::<F>();
    let Some((reader, other_readers)) = readers.split_first_mut() else {
        return Ok(());
    };
    let Some((batch, other_batches)) = batches.split_first_mut() else {
        return Ok(());
    };
    match reader.next_batch(alloc, feed, rows, batch) {
        Ok(()) => next_batches(alloc, feed, rows, other_readers, other_batches),
        Err(fault) => Err(fault),
    }
}
