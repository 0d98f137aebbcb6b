//! Judges the columns of a stripe in their order, to find the first that is refused.
ghost use Rattle.std.specs.Prelude.{◌≡◌, ◌<◌, ◌≤◌, ◌+◌, length, Some, IfOk, IfSome};
ghost use Rattle.orc_columns.specs.Batches.{HoldsNoRead};
ghost use Rattle.orc_streams.specs.Acts.{FailedToOpen};
ghost use Rattle.orc_streams.specs.declared.layout.ReadColumn.{ReadColumn};
ghost use Rattle.orc_streams.specs.Layout.{layout_in, plan_at, EndsBy};
ghost use Rattle.orc_streams.specs.Readable.{IsReadable};
ghost use Rattle.orc_rows.specs.Judging.{IsContent, JudgesOne, JudgesEach};

use orc_columns::{ColumnFault, ColumnRooms, first_fault};
use orc_streams::{ColumnLayout, OpenFault, ReadColumn, StreamReader, layout_of, open_column};
use orc_tail::StripeFooter;
use outside::{FileRef, World};
use std::alloc::Global;

/// A column that is refused.
#[derive(Clone, Copy)]
pub struct Refused {
    /// The number of its type.
    pub column: u32,
    /// The first condition that refuses it.
    pub fault: ColumnFault,
}

/// The first condition that refuses the column of that index in so many rows, or None where it has values in all of them.
///
/// Its streams are opened anew. `Read` comes only where the reader's faults rose in this call, and `NoMemory` where memory was
/// refused.
pub fn judge_column<W: World, S: StreamReader<W>>(
    alloc: Global,
    reader: &mut S,
    file: FileRef,
    index: u32,
    layout: ColumnLayout,
    rows: u64,
) -> Result<Option<ColumnFault>, OpenFault>
    requires few { index < 16 }
    requires readable { IsReadable W.files file }
    requires in_file { EndsBy file.len layout }
    ensures judges { JudgesOne S.did S.Feed.fault_count W.files file index layout rows reader.old reader.new result }
{
    open_column(alloc, reader, file, index, layout)?;
    let Ok(rooms) = ColumnRooms::new(alloc) else {
        return Err(OpenFault::NoMemory);
    };
    match first_fault(layout.plan(index), reader, rows, rooms) {
        Ok(None) => Ok(None),
        Ok(Some(fault)) => of_content(fault),
        Err(ColumnFault::Read(failed)) => Err(OpenFault::Read(failed)),
        Err(_) => Err(OpenFault::NoMemory),
    }
}

/// A fault that was found, where it is the content's own.
///
/// Judging finds no other; for the others it takes no memory, so that answer is as good as any.
fn of_content(fault: ColumnFault) -> Result<Option<ColumnFault>, OpenFault>
    requires { HoldsNoRead fault }
    ensures found { IfOk result (λ found. found ≡ Some fault) }
    ensures content { IfOk result (λ found. IfSome found IsContent) }
    ensures no_read { FailedToOpen result → ⊥ }
{
    match fault {
        ColumnFault::Read(_) | ColumnFault::NoMemory => Err(OpenFault::NoMemory),
        _ => Ok(Some(fault)),
    }
}

/// The first of columns that is refused in so many rows, or None where each has values in all of them.
///
/// The first has that index, and there are at most 16 in all. Each column's streams are opened anew, and judged before those of the
/// next. `Read` comes only where the reader's faults rose in this call, and `NoMemory` where memory was refused.
pub fn judge_columns<W: World, S: StreamReader<W>>(
    alloc: Global,
    reader: &mut S,
    file: FileRef,
    footer: &StripeFooter,
    index: u32,
    columns: &[ReadColumn],
    rows: u64,
) -> Result<Option<Refused>, OpenFault>
    requires few { index + length columns.now ≤ 16 }
    requires readable { IsReadable W.files file }
    requires in_file { (column : ReadColumn) → EndsBy file.len (layout_in footer.now column) }
    ensures judges { JudgesEach S.did S.Feed.fault_count W.files file index footer.now columns.now rows reader.old reader.new result }
{
    let Some((column, others)) = columns.split_first() else {
        return Ok(None);
    };
    match judge_column(alloc, reader, file, index, layout_of(footer, *column), rows) {
        Ok(None) => judge_columns(alloc, reader, file, footer, index + 1, others, rows),
        Ok(Some(fault)) => Ok(Some(Refused {
            column: column.number,
            fault,
        })),
        Err(fault) => Err(fault),
    }
}
