//! Whether a row may be pushed.
ghost use Rattle.std.specs.Prelude.{◌↔◌, IsTrue};
ghost use Rattle.column_writer.specs.Buffered.{MayStand};
ghost use Rattle.table_columns.specs.Shapes.{RowFits};
ghost use Rattle.table_columns.specs.Tables.{shapes_of};

use crate::table_column::{Content, TableColumn};
use orc_columns::Spelling;
use orc_values::Value;

/// Whether a row has a value for each column that is written, and for no other: null, or of the column's kind.
pub fn takes(columns: &[TableColumn], row: &[Value]) -> bool
    ensures { IsTrue result ↔ RowFits (shapes_of columns.now) row.now }
{
    let Some((column, columns)) = columns.split_first() else {
        return row.is_empty();
    };
    let Content::Written(buffer) = &column.content else {
        return takes(columns, row);
    };
    let Some((value, row)) = row.split_first() else {
        return false;
    };
    may_stand(buffer.spelling(), value) && takes(columns, row)
}

/// Whether a value may stand in a column of this spelling.
fn may_stand(spelling: Spelling, value: &Value) -> bool
    ensures { IsTrue result ↔ MayStand spelling value.now }
{
    match (value, spelling) {
        (Value::Null, _) => true,
        (Value::Bool(_), Spelling::Bits) => true,
        (Value::Int(_), Spelling::Integers(_)) => true,
        (Value::Text(_), Spelling::Texts(_) | Spelling::Dictionary(_)) => true,
        _ => false,
    }
}
