//! The rows of a generated file, as they are given to a writer.
ghost use Rattle.std.specs.Prelude.{◌≡◌, ◌+◌, IfOk, OnOk};
ghost use Rattle.generated_file.specs.Making.{HasFirst};

use crate::columns::columns;
use generated_rows::row_at;
use orc_writer::Writer;
use outside::NoMemory;
use std::alloc::Global;

/// How many rows a stripe has, but for the last.
const STRIPE_ROWS: u32 = 10_000;

/// A writer that holds all rows. Refuses for want of memory alone.
pub(crate) fn with_rows(alloc: Global, number: u32, rows: u32) -> Result<Writer, NoMemory>
    ensures { IfOk result (HasFirst number rows) }
{
    let mut writer = begun(alloc, number)?;
    for index in 0..rows {
        push_next(alloc, &mut writer, number, index)?;
    }
    Ok(writer)
}

/// A writer without rows.
fn begun(alloc: Global, number: u32) -> Result<Writer, NoMemory>
    ensures { IfOk result (HasFirst number 0) }
{
    let columns = columns(alloc)?;
    Writer::new(alloc, columns, STRIPE_ROWS)
}

/// Gives the next row to a writer that holds those before it.
fn push_next(alloc: Global, writer: &mut Writer, number: u32, index: u32) -> Result<(), NoMemory>
    requires { HasFirst number index writer.old }
    ensures { OnOk result (HasFirst number (index + 1) writer.new) }
{
    let row = row_at(alloc, number, index)?;
    writer.push_row(&row)
}
