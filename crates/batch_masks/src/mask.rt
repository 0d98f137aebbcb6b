//! The rows of a batch that pass all tests.
ghost use Rattle.std.specs.Prelude.{◌≡◌, ◌<◌, length, map, replicate, true, All, IfOk};
ghost use Rattle.batch_masks.specs.Rows.{passes, rows_of};

use crate::narrow::narrow;
use fragment_plan::Test;
use orc_values::Column;
use outside::NoMemory;
use std::alloc::Global;

/// Which rows of a batch pass: a flag for each of so many rows, which is set where each test holds of the row.
///
/// Each column has so many rows, and each test is of one of the columns. Refuses only for want of memory.
pub fn mask_of(
    alloc: Global,
    tests: &[Test],
    columns: &[Column],
    rows: usize,
) -> Result<Vec<bool>, NoMemory>
    requires within { All (λ test. test.column < length columns.now) tests.now }
    requires rows { All (λ column. length column ≡ rows) columns.now }
    ensures { IfOk result (λ mask. mask.items ≡ map (passes tests.now) (rows_of rows columns.now)) }
{
    let Ok(mut mask) = vec![in alloc; true; rows] else {
        return Err(NoMemory);
    };
    narrow_all(&mut mask, tests, columns);
    Ok(mask)
}

/// Lets those rows pass no more of which a test doesn't hold, where all passed.
fn narrow_all(mask: &mut [bool], tests: &[Test], columns: &[Column])
    requires within { All (λ test. test.column < length columns.now) tests.now }
    requires rows { All (λ column. length column ≡ length mask.old) columns.now }
    requires all { mask.old ≡ replicate (length mask.old) true }
    ensures { mask.new ≡ map (passes tests.now) (rows_of (length mask.old) columns.now) }
{
    for one in tests {
        narrow(mask, &columns[one.column as usize], &one.check);
    }
}
