//! Columns without rows.
ghost use Rattle.std.specs.Prelude.{◌≡◌};
ghost use Rattle.table_columns.specs.Tables.{emptied, without_rows};

use crate::table_column::{Content, TableColumn};
use column_writer::ColumnBuffer;
use std::alloc::Global;

/// Lets the rows of all columns go.
pub fn clear(alloc: Global, columns: &mut [TableColumn])
    ensures { columns.new ≡ without_rows columns.old }
{
    let Some((column, columns)) = columns.split_first_mut() else {
        return;
    };
    clear_content(alloc, &mut column.content);
    clear(alloc, columns);
}

/// Lets the rows of a column go.
fn clear_content(alloc: Global, content: &mut Content)
    ensures { content.new ≡ emptied content.old }
{
    match content {
        Content::Opaque(_) => {}
        Content::Written(buffer) => buffer.clear(alloc),
    }
}
