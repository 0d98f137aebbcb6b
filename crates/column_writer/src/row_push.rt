//! A row over several columns.
ghost use Rattle.std.specs.Prelude.{◌≡◌, OnOk, OnErr};
ghost use Rattle.column_writer.specs.Buffered.{AllMayStand, and_rows};

use crate::column_buffer::ColumnBuffer;
use orc_values::Value;
use outside::NoMemory;
use std::alloc::Global;

/// Adds a row: to each column its value, which is null or of the column's kind.
///
/// Answers `NoMemory` where memory was refused, and then every column is as before.
pub fn push_row(alloc: Global, columns: &mut [ColumnBuffer], row: &[Value]) -> Result<(), NoMemory>
    requires { AllMayStand columns.old row.now }
    ensures ok { OnOk result (columns.new ≡ and_rows columns.old row.now) }
    ensures err { OnErr result (columns.new ≡ columns.old) }
{
    let Some((value, row)) = row.split_first() else {
        return Ok(());
    };
    let Some((column, columns)) = columns.split_first_mut() else {
        return Ok(());
    };
    column.push(value)?;
    match push_row(alloc, columns, row) {
        Ok(()) => Ok(()),
        Err(_) => {
            column.pop(alloc);
            Err(NoMemory)
        }
    }
}
