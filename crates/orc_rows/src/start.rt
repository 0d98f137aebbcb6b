//! Opens the columns of a stripe, and starts their readers.
ghost use Rattle.std.specs.Prelude.{◌≡◌, ◌<◌, ◌≤◌, ◌+◌, ◌++◌, ◌∷◌, [], List, length, None, IfOk, IfErr, OnOk, OnErr};
ghost use Rattle.outside.specs.Reading.{placed};
ghost use Rattle.orc_columns.specs.Batches.{HoldsNoRead};
ghost use Rattle.orc_columns.specs.Midway.{ReaderOf};
ghost use Rattle.orc_streams.specs.Layout.{layout_in, plan_at, EndsBy};
ghost use Rattle.orc_streams.specs.Readable.{IsReadable};
ghost use Rattle.orc_tail.specs.StripeFooter.{FollowEachOther};
ghost use Rattle.orc_rows.specs.Starting.{Starts, EachStarts, layouts_in};

use orc_columns::laws::takes_leave_other_streams;
use orc_columns::{ColumnFault, ColumnReader};
use orc_streams::laws::plans_are_apart;
use orc_streams::{ColumnLayout, OpenFault, ReadColumn, StreamReader, layout_of, open_column};
use orc_tail::StripeFooter;
use outside::{FileRef, NoMemory, World};
use std::alloc::Global;

/// Opens the streams of the column of that index, and starts its reader.
///
/// A fault is that of the column before its first row. `Read` comes only where the reader's faults rose in this call, and
/// `NoMemory` where memory was refused.
pub fn start_column<W: World, S: StreamReader<W>>(
    alloc: Global,
    reader: &mut S,
    file: FileRef,
    index: u32,
    layout: ColumnLayout,
) -> Result<ColumnReader, ColumnFault>
    requires few { index < 16 }
    requires readable { IsReadable W.files file }
    requires in_file { EndsBy file.len layout }
    ensures plan { IfOk result (λ started. started.plan ≡ plan_at index layout) }
    ensures fresh { IfOk result (λ started. started.fault ≡ None) }
    ensures no_read { IfErr result HoldsNoRead }
    ensures starts { Starts S.did S.rest S.Feed.fault_count W.files file index layout reader.old reader.new result }
{
    takes_leave_other_streams::<S>();
    plans_are_apart();
    match open_column(alloc, reader, file, index, layout) {
        Ok(()) => {}
        Err(OpenFault::Read(failed)) => return Err(ColumnFault::Read(failed)),
        Err(OpenFault::NoMemory) => return Err(ColumnFault::NoMemory),
    }
    ColumnReader::start(alloc, layout.plan(index), reader)
}

/// Opens columns of a stripe and starts their readers, one after the other, behind those that `readers` has.
///
/// The first has that index, and there are at most 16 in all; the footer's streams lie in the file. A fault is that of one of
/// the columns before its first row: it needn't be that of the stripe. `Read` comes only where the reader's faults rose in this
/// call, and `NoMemory` where memory was refused.
pub fn start_columns<W: World, S: StreamReader<W>>(
    alloc: Global,
    reader: &mut S,
    file: FileRef,
    footer: &StripeFooter,
    index: u32,
    columns: &[ReadColumn],
    readers: &mut Vec<ColumnReader>,
) -> Result<(), ColumnFault>
    requires few { index + length columns.now ≤ 16 }
    requires readable { IsReadable W.files file }
    requires in_file { (column : ReadColumn) → EndsBy file.len (layout_in footer.now column) }
    ensures no_read { IfErr result HoldsNoRead }
    ensures starts { (started : List ReaderOf) × (readers.new.items ≡ readers.old.items ++ started)
        × EachStarts S.did S.rest S.Feed.fault_count W.files file index (layouts_in footer.now columns.now) reader.old reader.new
        (placed started result) }
{
    let Some((column, others)) = columns.split_first() else {
        return Ok(());
    };
    let started = match start_column(alloc, reader, file, index, layout_of(footer, *column)) {
        Ok(started) => started,
        Err(fault) => return Err(fault),
    };
    match keep(readers, started) {
        Ok(()) => start_columns(alloc, reader, file, footer, index + 1, others, readers),
        Err(_) => Err(ColumnFault::NoMemory),
    }
}

/// Puts a reader behind the others.
fn keep(readers: &mut Vec<ColumnReader>, started: ColumnReader) -> Result<(), NoMemory>
    ensures kept { OnOk result (readers.new.items ≡ readers.old.items ++ started ∷ []) }
    ensures refused { OnErr result (readers.new.items ≡ readers.old.items) }
{
    let Ok(()) = readers.push(started) else {
        return Err(NoMemory);
    };
    Ok(())
}
