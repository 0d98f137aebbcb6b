//! A law of the columns that are read, as the contract of a function that does nothing.
ghost use Rattle.scan_columns.specs.Laws.{ColumnsAreReadOnce};

/// Columns that are read have ascending numbers, so none is read twice, and just the numbers of those that are named.
pub fn columns_are_read_once()
    ensures { ColumnsAreReadOnce }
{}
