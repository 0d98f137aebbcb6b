ghost use Rattle.std.specs.Prelude.{◌≡◌};

use orc_values::Value;
use std::marker::Model;

/// A row of a result. Contracts see it as the list of its values.
#[derive(Drop)]
pub struct Row {
    values: Vec<Value>,
}

impl Model for Row {
    ghost use Rattle.orc_values.specs.Column.{RowValues};

    ghost Value = { RowValues };

    ghost view = { λ row. row.values.items };
}

impl Row {
    /// The row of these values, which it keeps: no memory is taken.
    pub fn new(values: Vec<Value>) -> Row
        ensures { result ≡ values.items }
    {
        Row { values }
    }

    /// The values, lent.
    pub fn as_slice(&self) -> &[Value]
        ensures { result.now ≡ self.now }
    {
        self.values.as_slice()
    }

    /// The `Vec` that it was made from.
    pub fn into_vec(self) -> Vec<Value>
        ensures { result.items ≡ self }
    {
        let Row { values } = self;
        values
    }
}
