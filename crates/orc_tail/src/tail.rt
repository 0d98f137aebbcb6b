//! A file's tail, as it is read.

ghost use Rattle.std.specs.Prelude.{◌≡◌, option_copied};
ghost use Rattle.orc_tail.specs.Tail.{column_named as first_column};

use crate::columns::{TopColumn, TopColumns};
use crate::stripe::Stripes;

/// What a file's tail says: where its stripes lie, and which columns its rows have.
///
/// Source: Apache ORC specification v1, "File Tail".
#[derive(Drop)]
pub struct Tail {
    /// The stripes, in order.
    pub stripes: Stripes,
    /// The columns of the rows, in order.
    pub columns: TopColumns,
}

/// The first column of the tail that has this name, or None where there is none.
pub fn column_named<'a>(tail: &'a Tail, name: &str) -> Option<&'a TopColumn>
    ensures { option_copied result ≡ first_column name.now tail.now.columns }
{
    tail.columns
        .as_slice()
        .iter()
        .find(|column| column.name.as_slice() == name.as_bytes())
}
