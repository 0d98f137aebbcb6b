//! The walk over one stripe.
ghost use Rattle.std.specs.Prelude.{◌≡◌, ◌<◌, ◌≤◌, ℕ, List, length};
ghost use Rattle.outside.specs.Files.{HasBytes};
ghost use Rattle.orc_streams.specs.declared.layout.ReadColumn.{ReadColumn};
ghost use Rattle.orc_streams.specs.Layout.{layout_in, EndsBy};
ghost use Rattle.orc_streams.specs.Readable.{IsReadable};
ghost use Rattle.orc_tail.specs.Tail.{stripe_end};
ghost use Rattle.orc_batches.specs.Batch.{Batch};
ghost use Rattle.orc_rows.specs.Given.{kinds_in};
ghost use Rattle.orc_rows.specs.Judging.{IsContent};
ghost use Rattle.orc_rows.specs.Rows.{HaveValues};
ghost use Rattle.orc_walk.specs.StripeWalk.{Blames, WalksColumns, WalksStripe};

use crate::stop::{Stop, column_stop, footer_stop};
use orc_batches::Consumer;
use orc_columns::{Column, ColumnFault};
use orc_rows::{RowsFault, give_columns, judge_columns};
use orc_streams::laws::layouts_end_in_the_stripe;
use orc_streams::{OpenFault, ReadColumn, StreamReader};
use orc_tail::{Stripe, StripeFooter, read_stripe_footer};
use outside::{FileRef, World};
use std::alloc::Global;

/// Why the walk stops where columns of the stripe of that number have no values in so many rows: by the first that is refused.
///
/// Where judging finds none, which can't be while the file stays the same, it is by the first column and the fault that was
/// answered.
fn blame<W: World, S: StreamReader<W>>(
    alloc: Global,
    reader: &mut S,
    file: FileRef,
    footer: &StripeFooter,
    columns: &[ReadColumn],
    rows: u64,
    stripe: u32,
    fault: ColumnFault,
) -> Stop<RowsFault>
    requires some { 0 < length columns.now }
    requires few { length columns.now ≤ 16 }
    requires readable { IsReadable W.files file }
    requires in_file { (column : ReadColumn) → EndsBy file.len (layout_in footer.now column) }
    requires content { IsContent fault }
    requires none { (bytes : List ℕ) → HasBytes W.files file bytes → (values : Batch)
        → HaveValues bytes footer.now rows columns.now values → ⊥ }
    ensures blames { Blames S.did S.Feed.fault_count W.files file footer.now columns.now rows stripe reader.old reader.new result }
{
    match judge_columns(alloc, reader, file, footer, 0, columns, rows) {
        Ok(Some(refused)) => Stop::Fault(RowsFault::BrokenColumn {
            stripe,
            column: refused.column,
            fault: refused.fault,
        }),
        Ok(None) => Stop::Fault(RowsFault::BrokenColumn {
            stripe,
            column: columns[0].number,
            fault,
        }),
        Err(OpenFault::Read(failed)) => Stop::Read(failed),
        Err(OpenFault::NoMemory) => Stop::NoMemory,
    }
}

/// Gives the rows of a stripe's columns to a consumer, or finds the first column that is refused.
fn walk_columns<W: World, S: StreamReader<W>, C: Consumer>(
    alloc: Global,
    reader: &mut S,
    file: FileRef,
    footer: &StripeFooter,
    columns: &[ReadColumn],
    rows: u64,
    stripe: u32,
    batches: &mut [Column],
    consumer: &mut C,
) -> Result<(), Stop<RowsFault>>
    requires some { 0 < length columns.now }
    requires few { length columns.now ≤ 16 }
    requires readable { IsReadable W.files file }
    requires in_file { (column : ReadColumn) → EndsBy file.len (layout_in footer.now column) }
    requires beside { length columns.now ≡ length batches.old }
    requires kinds { C.kinds consumer.old ≡ kinds_in columns.now }
    ensures beside { length batches.new ≡ length batches.old }
    ensures walks { WalksColumns S.did S.Feed.fault_count W.files C.ate file footer.now columns.now rows stripe
        reader.old reader.new consumer.old consumer.new result }
{
    let fault = match give_columns(
        alloc, reader, file, footer, columns, rows, batches, consumer,
    ) {
        Ok(()) => return Ok(()),
        Err(fault) => fault,
    };
    match column_stop(fault) {
        Stop::Fault(fault) => Err(blame(alloc, reader, file, footer, columns, rows, stripe, fault)),
        Stop::Read(failed) => Err(Stop::Read(failed)),
        Stop::NoMemory => Err(Stop::NoMemory),
    }
}

/// Gives the rows of the stripe of that number to a consumer, by the columns that are read.
///
/// It reads the stripe's footer in one read, opens and starts the columns in their order, gives batches of 1,024 rows, the last of
/// which may have fewer, and closes all streams, whatever it answers then. Where no column is read it gives the number of rows
/// alone, and does nothing to the reader. There are at most 16 columns, read in the order in which they stand; `batches` has a batch
/// for each, whose memory is used.
///
/// A fault is the content's own: that of the footer, or of the first column that is refused, which is found by reading the columns
/// once more. The consumer has then taken some whole batches. `Read` comes only where the reader's faults rose in this call, and
/// `NoMemory` where memory was refused, here or by the consumer.
///
/// Source: Apache ORC specification v1, "Stripes"; which fault counts is this project's own.
pub fn walk_stripe<W: World, S: StreamReader<W>, C: Consumer>(
    alloc: Global,
    reader: &mut S,
    file: FileRef,
    number: u32,
    stripe: &Stripe,
    columns: &[ReadColumn],
    batches: &mut [Column],
    consumer: &mut C,
) -> Result<(), Stop<RowsFault>>
    requires few { length columns.now ≤ 16 }
    requires readable { IsReadable W.files file }
    requires in_file { stripe_end stripe.now ≤ file.len }
    requires beside { length columns.now ≡ length batches.old }
    requires kinds { C.kinds consumer.old ≡ kinds_in columns.now }
    ensures beside { length batches.new ≡ length batches.old }
    ensures walks { WalksStripe S.did S.Feed.fault_count W.files C.ate file columns.now number stripe.now
        reader.old reader.new consumer.old consumer.new result }
{
    if columns.is_empty() {
        let Ok(()) = consumer.count(stripe.rows) else {
            return Err(Stop::NoMemory);
        };
        return Ok(());
    }
    layouts_end_in_the_stripe();
    let footer = match read_stripe_footer(alloc, reader, file, stripe) {
        Ok(footer) => footer,
        Err(fault) => return Err(footer_stop(number, fault)),
    };
    let walked = walk_columns(
        alloc,
        reader,
        file,
        &footer,
        columns,
        stripe.rows,
        number,
        batches,
        consumer,
    );
    reader.close();
    walked
}
