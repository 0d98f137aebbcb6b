//! Where a column that nobody reads stands among the others.
ghost use Rattle.std.specs.Prelude.{◌≡◌, ◌≤◌, length, OnOk, OnErr};
ghost use Rattle.std.specs.List.{insert};
ghost use Rattle.table_columns.specs.declared.table_column.Content.TheVariants.{Opaque};
ghost use Rattle.table_columns.specs.Tables.{shapes_of};
ghost use Rattle.orc_writer.specs.Given.{count_written};
ghost use Rattle.orc_writer.specs.Placing.{is_written, IsPlace, IsInserted};

use outside::NoMemory;
use table_columns::{Content, OpaqueStream, TableColumn};
use tail_writer::FileColumn;

/// Adds a column that nobody reads in front of the written column of that place.
///
/// Answers `NoMemory` where memory was refused, and the columns are then as before.
pub(crate) fn insert_opaque(
    columns: &mut Vec<TableColumn>,
    before: u32,
    column: FileColumn,
    streams: Vec<OpaqueStream>,
) -> Result<(), NoMemory>
    ensures ok { OnOk result (IsInserted before (record { column = column; content = Opaque streams })
        columns.old.items columns.new.items) }
    ensures err { OnErr result (columns.new.items ≡ columns.old.items) }
{
    let at = place_of(columns, before);
    let opaque = TableColumn {
        column,
        content: Content::Opaque(streams),
    };
    insert_at(columns, at, opaque)
}

/// Adds a column at a place.
fn insert_at(columns: &mut Vec<TableColumn>, at: usize, column: TableColumn) -> Result<(), NoMemory>
    requires { at ≤ length columns.old.items }
    ensures ok { OnOk result (columns.new.items ≡ insert columns.old.items at column) }
    ensures err { OnErr result (columns.new.items ≡ columns.old.items) }
{
    match columns.insert(at, column) {
        Ok(()) => Ok(()),
        Err(_) => Err(NoMemory),
    }
}

/// The place of the written column that has so many others in front of it, behind the columns that nobody reads and stand there.
fn place_of(columns: &[TableColumn], before: u32) -> usize
    ensures within { result ≤ length columns.now }
    ensures place { IsPlace before columns.now result }
{
    let Some((column, columns)) = columns.split_first() else {
        return 0;
    };
    if !is_written(&column.content) {
        return 1 + place_of(columns, before);
    }
    if before == 0 {
        return 0;
    }
    1 + place_of(columns, before - 1)
}

/// How many columns are written.
pub(crate) fn count_written(columns: &[TableColumn]) -> usize
    ensures count { result ≡ count_written (shapes_of columns.now) }
    ensures within { result ≤ length columns.now }
{
    let Some((column, columns)) = columns.split_first() else {
        return 0;
    };
    if !is_written(&column.content) {
        return count_written(columns);
    }
    1 + count_written(columns)
}

/// Whether a column's rows are written.
fn is_written(content: &Content) -> bool
    ensures { result ≡ is_written content.now }
{
    matches!(content, Content::Written(_))
}
