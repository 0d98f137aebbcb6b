//! The columns of a stripe, given to a consumer.
ghost use Rattle.std.specs.Prelude.{◌≡◌, ◌≤◌, length, IfErr};
ghost use Rattle.orc_columns.specs.Batches.{HoldsNoRead};
ghost use Rattle.orc_streams.specs.declared.layout.ReadColumn.{ReadColumn};
ghost use Rattle.orc_streams.specs.Layout.{layout_in, EndsBy};
ghost use Rattle.orc_streams.specs.Readable.{IsReadable};
ghost use Rattle.orc_rows.specs.Given.{kinds_in};
ghost use Rattle.orc_rows.specs.Giving.{Gives};

use crate::start::start_columns;
use orc_batches::{Consumer, give_rows};
use orc_columns::laws::{a_column_is_one, a_reader_gives_the_column};
use orc_columns::{Column, ColumnFault};
use orc_streams::laws::plans_are_apart;
use orc_streams::{ReadColumn, StreamReader};
use orc_tail::StripeFooter;
use outside::{FileRef, World};
use std::alloc::Global;

/// Gives so many rows of the columns of a stripe to a consumer, by the stripe's footer.
///
/// A fault is that of one of the columns, in as many rows or fewer: it needn't be that of the stripe.
pub fn give_columns<W: World, S: StreamReader<W>, C: Consumer>(
    alloc: Global,
    reader: &mut S,
    file: FileRef,
    footer: &StripeFooter,
    columns: &[ReadColumn],
    rows: u64,
    batches: &mut [Column],
    consumer: &mut C,
) -> Result<(), ColumnFault>
    requires few { length columns.now ≤ 16 }
    requires readable { IsReadable W.files file }
    requires in_file { (column : ReadColumn) → EndsBy file.len (layout_in footer.now column) }
    requires beside { length columns.now ≡ length batches.old }
    requires kinds { C.kinds consumer.old ≡ kinds_in columns.now }
    ensures beside { length batches.new ≡ length batches.old }
    ensures no_read { IfErr result HoldsNoRead }
    ensures gives { Gives S.did S.Feed.fault_count W.files C.ate file footer.now columns.now rows
        reader.old reader.new consumer.old consumer.new result }
{
    a_column_is_one();
    a_reader_gives_the_column();
    plans_are_apart();
    let mut readers = Vec::new(alloc);
    match start_columns(alloc, reader, file, footer, 0, columns, &mut readers) {
        Ok(()) => give_rows(alloc, reader, rows, &mut readers, batches, consumer),
        Err(fault) => Err(fault),
    }
}
