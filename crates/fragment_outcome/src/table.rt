ghost use Rattle.std.specs.Prelude.{◌≡◌};

use crate::row::Row;
use std::marker::Model;

/// Rows of values, in order. Contracts see it as the list of them.
#[derive(Drop)]
pub struct Table {
    rows: Vec<Row>,
}

impl Model for Table {
    ghost use Rattle.std.specs.Prelude.{List};
    ghost use Rattle.orc_values.specs.Column.{RowValues};

    ghost Value = { List RowValues };

    ghost view = { λ table. table.rows.items };
}

impl Table {
    /// The rows of a `Vec`, which it keeps: no memory is taken.
    pub fn new(rows: Vec<Row>) -> Table
        ensures { result ≡ rows.items }
    {
        Table { rows }
    }

    /// The rows, lent.
    pub fn as_slice(&self) -> &[Row]
        ensures { result.now ≡ self.now }
    {
        self.rows.as_slice()
    }

    /// The `Vec` that it was made from.
    pub fn into_vec(self) -> Vec<Row>
        ensures { result.items ≡ self }
    {
        let Table { rows } = self;
        rows
    }
}
