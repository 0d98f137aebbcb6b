//! Laws of rows, as contracts of functions that do nothing.
ghost use Rattle.orc_rows.specs.Laws.{HaveRowsOrAFault, NeverRowsAndAFault, RowsAreOne, TheFaultIsOne};

use orc_columns::laws::{a_column_has_values_or_a_fault, a_column_is_one};

/// The rows of stripes, by the columns that are read, are one list for each column; the least stripe that fails has one fault; and
/// never both.
pub fn rows_are_one()
    ensures one { RowsAreOne }
    ensures one_fault { TheFaultIsOne }
    ensures never_both { NeverRowsAndAFault }
{
    a_column_is_one();
}

/// Stripes have rows, or one of them is the first that fails: with `rows_are_one`, exactly one of the two.
pub fn stripes_have_rows_or_a_fault()
    ensures { HaveRowsOrAFault }
{
    a_column_has_values_or_a_fault();
}
