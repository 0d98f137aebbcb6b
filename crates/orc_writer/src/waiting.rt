//! The rows that wait for a stripe.
ghost use Rattle.std.specs.Prelude.{◌≡◌, OnOk, OnErr};
ghost use Rattle.table_columns.specs.Shapes.{RowFits};
ghost use Rattle.table_columns.specs.Tables.{shapes_of, with_row, without_rows};

use orc_values::Value;
use outside::NoMemory;
use std::alloc::Global;
use table_columns::{TableColumn, clear, push_row};

/// Adds a row.
///
/// Answers `NoMemory` where memory was refused, and the columns are then as before.
pub(crate) fn push_values(
    alloc: Global,
    columns: &mut Vec<TableColumn>,
    row: &[Value],
) -> Result<(), NoMemory>
    requires { RowFits (shapes_of columns.old.items) row.now }
    ensures ok { OnOk result (columns.new.items ≡ with_row columns.old.items row.now) }
    ensures err { OnErr result (columns.new.items ≡ columns.old.items) }
{
    push_row(alloc, columns, row)
}

/// Lets all rows go.
pub(crate) fn let_go(alloc: Global, columns: &mut Vec<TableColumn>)
    ensures { columns.new.items ≡ without_rows columns.old.items }
{
    clear(alloc, columns);
}
