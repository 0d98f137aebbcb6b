//! Laws of scans that name no column, as contracts of functions that do nothing.
ghost use Rattle.empty_scans.specs.Laws.{RowsHaveColumns, ScansWithoutColumnsCount};

use fragment_plan::laws::plans_are_in_bounds;

/// A scan of a plan that was read and that names no column counts rows, and tests nothing; and one that keeps rows keeps at least
/// one column of each.
pub fn scans_without_columns_count()
    ensures rows { RowsHaveColumns }
    ensures empty { ScansWithoutColumnsCount }
{
    plans_are_in_bounds();
}
