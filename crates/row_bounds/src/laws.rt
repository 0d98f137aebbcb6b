//! Laws of how many rows there can be, as contracts of functions that do nothing.
ghost use Rattle.row_bounds.specs.Laws.{ColumnsAreBounded, StripesAreBounded, StripesTogether, FilesAreBounded, TailsAreBounded};
ghost use Rattle.row_bounds.specs.Laws.{AStripeIsInEachColumn, RowsAreInEachColumn};

/// A column that has values in so many rows has a byte for each 520 of them: of PRESENT, where that has bytes, and else of the
/// stream that its values stand in.
pub fn columns_are_bounded()
    ensures { ColumnsAreBounded }
{}

/// A stripe of a file of at most 4,294,967,295 bytes that has values of some column has at most 520 rows for each byte that
/// a file may have.
pub fn stripes_are_bounded()
    ensures one { StripesAreBounded }
    ensures together { StripesTogether }
{
    columns_are_bounded();
}

/// The rows of a file, where a column is read, are fewer than 2^62, so no count of 64 bits passes its end with them.
///
/// It is so of at most 1,000,000 stripes in at most 4,294,967,295 bytes, and so of the stripes of every tail that is read.
pub fn files_are_bounded()
    ensures stripes { FilesAreBounded }
    ensures tails { TailsAreBounded }
{
    stripes_are_bounded();
}

/// Each column of the rows of a stripe, or of stripes, has as many values as there are rows, and there are as many columns as
/// are read.
pub fn rows_are_in_each_column()
    ensures stripe { AStripeIsInEachColumn }
    ensures stripes { RowsAreInEachColumn }
{}
