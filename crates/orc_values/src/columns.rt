//! Some columns beside each other.

ghost use Rattle.std.specs.Prelude.{◌≡◌};

use crate::column::Column;
use std::marker::Model;

/// Columns, in order. Contracts see it as the list of them.
#[derive(Drop)]
pub struct Columns {
    items: Vec<Column>,
}

impl Model for Columns {
    ghost use Rattle.std.specs.Prelude.{List};
    ghost use Rattle.orc_values.specs.Column.{RowValues};

    ghost Value = { List RowValues };

    ghost view = { λ columns. columns.items.items };
}

impl Columns {
    /// The columns of a `Vec`, which it keeps: no memory is taken.
    pub fn new(items: Vec<Column>) -> Columns
        ensures { result ≡ items.items }
    {
        Columns { items }
    }

    /// The columns, lent.
    pub fn as_slice(&self) -> &[Column]
        ensures { result.now ≡ self.now }
    {
        self.items.as_slice()
    }

    /// The `Vec` that it was made from.
    pub fn into_vec(self) -> Vec<Column>
        ensures { result.items ≡ self }
    {
        let Columns { items } = self;
        items
    }
}
