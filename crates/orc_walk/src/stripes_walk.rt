//! The walk over the stripes of a file.
ghost use Rattle.std.specs.Prelude.{◌≡◌, ◌≤◌, length, All, IfOk};
ghost use Rattle.orc_streams.specs.Readable.{IsReadable};
ghost use Rattle.orc_tail.specs.Tail.{stripe_end};
ghost use Rattle.orc_rows.specs.Given.{kinds_in};
ghost use Rattle.orc_walk.specs.StripeWalk.{WalksStripes};

use crate::stop::Stop;
use crate::stripe_walk::walk_stripe;
use orc_batches::Consumer;
use orc_columns::Column;
use orc_rows::RowsFault;
use orc_streams::{ReadColumn, StreamReader};
use orc_tail::Stripe;
use outside::{FileRef, NoMemory, World};
use std::alloc::Global;

/// So many batches without rows.
fn empty_batches(alloc: Global, count: usize) -> Result<Vec<Column>, NoMemory>
    ensures { IfOk result (λ batches. length batches.items ≡ count) }
{
    let mut batches = Vec::new(alloc);
    while batches.len() < count {
        let Ok(()) = batches.push(Column::empty(alloc)) else {
            return Err(NoMemory);
        };
    }
    Ok(batches)
}

/// Walks stripes, one after the other, with a batch for each column.
fn walk_each<W: World, S: StreamReader<W>, C: Consumer>(
    alloc: Global,
    reader: &mut S,
    file: FileRef,
    stripes: &[Stripe],
    columns: &[ReadColumn],
    batches: &mut [Column],
    consumer: &mut C,
) -> Result<(), Stop<RowsFault>>
    requires few_stripes { length stripes.now ≤ 1000000 }
    requires few { length columns.now ≤ 16 }
    requires readable { IsReadable W.files file }
    requires in_file { All (λ stripe. stripe_end stripe ≤ file.len) stripes.now }
    requires beside { length columns.now ≡ length batches.old }
    requires kinds { C.kinds consumer.old ≡ kinds_in columns.now }
    ensures walks { WalksStripes S.did S.Feed.fault_count W.files C.ate file columns.now stripes.now
        reader.old reader.new consumer.old consumer.new result }
{
    let mut number = 0;
    for stripe in stripes {
        match walk_stripe(
            alloc, reader, file, number, stripe, columns, batches, consumer,
        ) {
            Ok(()) => {}
            Err(why) => return Err(why),
        }
        number += 1;
    }
    Ok(())
}

/// Gives the rows of a file's stripes to a consumer, in their order, by the columns that are read.
///
/// The stripes are those of a tail: at most 1,000,000, and each lies in the file. Each is walked as `walk_stripe` does it. There are
/// at most 16 columns, read in the order in which they stand; with none the consumer takes each stripe's count, and the file
/// isn't read.
///
/// A fault is that of the least stripe that fails, its footer before its columns and these in their order; the consumer has then
/// taken some pieces in front of it. `Read` comes only where the reader's faults rose in this call, and `NoMemory` where memory
/// was refused, here or by the consumer.
///
/// Source: Apache ORC specification v1, "File Structure"; which fault counts is this project's own.
pub fn walk_stripes<W: World, S: StreamReader<W>, C: Consumer>(
    alloc: Global,
    reader: &mut S,
    file: FileRef,
    stripes: &[Stripe],
    columns: &[ReadColumn],
    consumer: &mut C,
) -> Result<(), Stop<RowsFault>>
    requires few_stripes { length stripes.now ≤ 1000000 }
    requires few { length columns.now ≤ 16 }
    requires readable { IsReadable W.files file }
    requires in_file { All (λ stripe. stripe_end stripe ≤ file.len) stripes.now }
    requires kinds { C.kinds consumer.old ≡ kinds_in columns.now }
    ensures walks { WalksStripes S.did S.Feed.fault_count W.files C.ate file columns.now stripes.now
        reader.old reader.new consumer.old consumer.new result }
{
    let Ok(mut batches) = empty_batches(alloc, columns.len()) else {
        return Err(Stop::NoMemory);
    };
    walk_each(
        alloc,
        reader,
        file,
        stripes,
        columns,
        &mut batches,
        consumer,
    )
}
