//! Laws of the streams of a stripe, as contracts of functions that do nothing.
ghost use Rattle.stripe_writer.specs.Laws.{ColumnIsAdded, OthersStay, ColumnIsThere, ColumnsAreThere};

/// A column that had no stream has just the streams that were added for it, and a stream of one column leaves those of
/// every other column as they were.
pub fn streams_are_added()
    ensures column { ColumnIsAdded }
    ensures others { OthersStay }
{}

/// In a file where the streams lie one behind the other from a place on, and the stripe's footer lists them from there, a
/// column has the rows that its streams were written from, and so have all columns that are read.
pub fn a_column_is_there()
    ensures one { ColumnIsThere }
    ensures all { ColumnsAreThere }
{}
