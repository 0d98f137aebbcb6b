//! A row over the columns of a table.
ghost use Rattle.std.specs.Prelude.{◌≡◌, OnOk, OnErr, IfOk};
ghost use Rattle.table_columns.specs.Shapes.{RowFits};
ghost use Rattle.table_columns.specs.Tables.{shapes_of, content_with, rest_for, with_row, TakesFrom, HasRow, IsTaken};

use crate::table_column::{Content, TableColumn};
use orc_values::Value;
use outside::NoMemory;
use std::alloc::Global;

/// Adds a row: to each column that is written its value, which is null or of the column's kind.
///
/// Answers `NoMemory` where memory was refused, and then every column is as before.
pub fn push_row(alloc: Global, columns: &mut [TableColumn], row: &[Value]) -> Result<(), NoMemory>
    requires { RowFits (shapes_of columns.old) row.now }
    ensures ok { OnOk result (columns.new ≡ with_row columns.old row.now) }
    ensures err { OnErr result (columns.new ≡ columns.old) }
{
    let Some((column, columns)) = columns.split_first_mut() else {
        return Ok(());
    };
    let rest = push_value(&mut column.content, row)?;
    match push_row(alloc, columns, rest) {
        Ok(()) => Ok(()),
        Err(_) => {
            pop_value(alloc, &mut column.content);
            Err(NoMemory)
        }
    }
}

/// Adds the first value of a row to a column that takes one. Answers what is left of the row.
fn push_value<'a>(content: &mut Content, row: &'a [Value]) -> Result<&'a [Value], NoMemory>
    requires { TakesFrom content.old row.now }
    ensures ok { IfOk result (λ rest. rest.now ≡ rest_for content.old row.now) }
    ensures content { OnOk result (content.new ≡ content_with content.old row.now) }
    ensures err { OnErr result (content.new ≡ content.old) }
{
    match content {
        Content::Opaque(_) => Ok(row),
        Content::Written(buffer) => {
            let Some((value, rest)) = row.split_first() else {
                unreachable!()
            };
            buffer.push(value)?;
            Ok(rest)
        }
    }
}

/// Lets the last value of a column that takes one go.
fn pop_value(alloc: Global, content: &mut Content)
    requires { HasRow content.old }
    ensures { IsTaken content.old content.new }
{
    match content {
        Content::Opaque(_) => {}
        Content::Written(buffer) => buffer.pop(alloc),
    }
}
