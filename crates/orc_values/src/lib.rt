//! The values of columns: a batch of a column as the typed list of those that aren't null, beside the flags of its rows.
#![tactic(auto)]

mod chosen_texts;
mod column;
mod column_values;
mod columns;
mod dictionary;
pub mod laws;
mod rows;
mod texts;
mod value;

pub use chosen_texts::{ChosenTexts, entry_at, entry_number};
pub use column::Column;
pub use column_values::ColumnValues;
pub use columns::Columns;
pub use dictionary::Dictionary;
pub use rows::{count_present, lay_ends};
pub use texts::Texts;
pub use value::{Value, ValueRef};
