//! The end of a file.
ghost use Rattle.std.specs.Prelude.{◌≡◌, ◌++◌, ◌∷◌, [], IfOk, OnOk};
ghost use Rattle.orc_writer.specs.Ending.{file_columns_of, IsEnded};

use orc_tail::Stripe;
use outside::NoMemory;
use rle_writer::put;
use std::alloc::Global;
use table_columns::TableColumn;
use tail_writer::{FileColumn, write_tail};

/// The file's bytes, and behind them the tail of a file with these stripes, these columns, each list in order, and this number of
/// rows.
///
/// A refused call, for want of memory alone, gives the file's bytes up.
///
/// Source: Apache ORC specification v1, "File Structure" and "File Tail".
pub(crate) fn end_file(
    alloc: Global,
    file: Vec<u8>,
    stripes: &[Stripe],
    columns: Vec<TableColumn>,
    rows: u64,
) -> Result<Vec<u8>, NoMemory>
    ensures { IfOk result (λ made. IsEnded file.items made.items stripes.now (file_columns_of columns.items) rows) }
{
    let columns = file_columns(alloc, columns)?;
    let Ok(tail) = write_tail(alloc, stripes, &columns, rows) else {
        return Err(NoMemory);
    };
    let mut bytes = file;
    put(&mut bytes, &tail)?;
    Ok(bytes)
}

/// What the footer says of these columns.
fn file_columns(alloc: Global, columns: Vec<TableColumn>) -> Result<Vec<FileColumn>, NoMemory>
    ensures { IfOk result (λ of. of.items ≡ file_columns_of columns.items) }
{
    let mut of = Vec::new(alloc);
    for column in columns {
        push_column(&mut of, column)?;
    }
    Ok(of)
}

/// Adds what the footer says of a column.
fn push_column(of: &mut Vec<FileColumn>, column: TableColumn) -> Result<(), NoMemory>
    ensures { OnOk result (of.new.items ≡ of.old.items ++ column.column ∷ []) }
{
    if of.reserve(1).is_err() {
        return Err(NoMemory);
    }
    of.push_reserved(column.column);
    Ok(())
}
