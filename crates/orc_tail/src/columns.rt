//! The columns that a file's rows have.

ghost use Rattle.std.specs.Prelude.{◌≡◌};

use outside::Bytes;
use std::marker::Model;

/// A column of the rows: a child of type 0.
///
/// Kinds: 0 BOOLEAN, 1 BYTE, 2 SHORT, 3 INT, 4 LONG, 5 FLOAT, 6 DOUBLE, 7 STRING, 8 BINARY, 9 TIMESTAMP,
/// 10 LIST, 11 MAP, 12 STRUCT, 13 UNION, 14 DECIMAL, 15 DATE, 16 VARCHAR, 17 CHAR; others may stand.
///
/// Source: Apache ORC specification v1, "Type Information".
#[derive(Drop)]
pub struct TopColumn {
    /// The number of its type.
    pub number: u32,
    /// The number of its type's kind.
    pub kind: u64,
    /// Its name.
    pub name: Bytes,
}

/// The columns of a file, in order. A contract sees them as a list.
#[derive(Drop)]
pub struct TopColumns {
    items: Vec<TopColumn>,
}

impl Model for TopColumns {
    ghost use Rattle.std.specs.Prelude.{List};
    ghost use Rattle.orc_tail.specs.declared.columns.TopColumn.{TopColumn};

    ghost Value = { List TopColumn };

    ghost view = { λ columns. columns.items.items };
}

impl TopColumns {
    /// The columns of the list `items`.
    pub fn new(items: Vec<TopColumn>) -> TopColumns
        ensures { result ≡ items.items }
    {
        TopColumns { items }
    }

    /// Lends the columns.
    pub fn as_slice(&self) -> &[TopColumn]
        ensures { result.now ≡ self.now }
    {
        self.items.as_slice()
    }

    /// Gives the list back.
    pub fn into_vec(self) -> Vec<TopColumn>
        ensures { result.items ≡ self }
    {
        let TopColumns { items } = self;
        items
    }
}
