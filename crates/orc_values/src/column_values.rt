//! The typed list of a column.

ghost use Rattle.std.specs.Prelude.{◌≡◌, ◌==◌};
ghost use Rattle.orc_values.specs.Column.{entries_in};

use crate::chosen_texts::ChosenTexts;
use crate::texts::Texts;

/// The values of a column that aren't null, as one list of their type, in the order of their rows.
#[derive(Drop)]
pub enum ColumnValues {
    /// Of kind BOOLEAN.
    Bools(Vec<bool>),
    /// Of kinds SHORT, INT and LONG.
    Ints(Vec<i64>),
    /// Of kind STRING, spelled one by one.
    Texts(Texts),
    /// Of kind STRING, spelled by a dictionary.
    Chosen(ChosenTexts),
}

impl ColumnValues {
    /// How many values there are.
    pub fn len(&self) -> usize
        ensures { result ≡ entries_in self.now }
    {
        match self {
            ColumnValues::Bools(values) => values.len(),
            ColumnValues::Ints(values) => values.len(),
            ColumnValues::Texts(values) => values.len(),
            ColumnValues::Chosen(values) => values.len(),
        }
    }

    /// Whether there is none.
    pub fn is_empty(&self) -> bool
        ensures { result ≡ (entries_in self.now == 0) }
    {
        self.len() == 0
    }
}
