//! What a batch brings to a fold all of whose rows pass.
ghost use Rattle.std.specs.Prelude.{◌≡◌, ◌<◌, ◌+◌, ◌^◌, length, All, IfOk};
ghost use Rattle.batch_masks.specs.Rows.{rows_of};
ghost use Rattle.batch_masks.specs.Totals.{SumOfFew};
ghost use Rattle.fragment_plan.specs.Bounds.{FoldInBounds};
ghost use Rattle.fragment_plan.specs.declared.fragment.FoldKind.TheVariants as kind;
ghost use Rattle.fold_rows.specs.States.{with_rows, sum_in};

use crate::kept::{count_with, with_kept_rows};
use crate::state::State;
use batch_masks::with_all;
use fragment_plan::FoldKind;
use orc_values::Column;
use outside::NoMemory;
use std::alloc::Global;

/// What a fold has with all rows more of a batch.
///
/// A fold that counts looks at no row, and one that sums adds the numbers that aren't null as they stand. `given` is how many rows
/// the fold was given before, at least. Refuses only for want of memory, and then the state is gone.
pub fn with_whole(
    alloc: Global,
    fold: &FoldKind,
    state: State,
    given: u64,
    columns: &[Column],
    rows: usize,
) -> Result<State, NoMemory>
    requires places { FoldInBounds (length columns.now) fold.now }
    requires rows { All (λ column. length column ≡ rows) columns.now }
    requires few { given + rows < 2 ^ 63 }
    requires bound { SumOfFew given (sum_in state) }
    ensures state { IfOk result (λ new. new ≡ with_rows fold.now state (rows_of rows columns.now)) }
    ensures bound { IfOk result (λ new. SumOfFew (given + rows) (sum_in new)) }
{
    match fold {
        FoldKind::Count => Ok(count_whole(state, given, columns, rows)),
        FoldKind::Sum(place) => Ok(sum_whole(*place, state, given, columns, rows)),
        FoldKind::Rows(_) => by_mask(alloc, fold, state, given, columns, rows),
        FoldKind::Group(_) => by_mask(alloc, fold, state, given, columns, rows),
    }
}

/// What a fold that counts has with so many rows more.
fn count_whole(state: State, given: u64, columns: &[Column], rows: usize) -> State
    requires bound { SumOfFew given (sum_in state) }
    ensures state { result ≡ with_rows kind.Count state (rows_of rows columns.now) }
    ensures bound { SumOfFew (given + rows) (sum_in result) }
{
    // the contract alone speaks of these two
    let _given = given;
    let _columns = columns;
    count_with(state, rows as u64)
}

/// What a fold that sums has with all numbers more of its column.
fn sum_whole(place: u32, state: State, given: u64, columns: &[Column], rows: usize) -> State
    requires place { place < length columns.now }
    requires rows { All (λ column. length column ≡ rows) columns.now }
    requires few { given + rows < 2 ^ 63 }
    requires bound { SumOfFew given (sum_in state) }
    ensures state { result ≡ with_rows (kind.Sum place) state (rows_of rows columns.now) }
    ensures bound { SumOfFew (given + rows) (sum_in result) }
{
    // the contract alone speaks of it
    let _rows = rows;
    match state {
        State::Sum(total) => State::Sum(with_all(total, given, &columns[place as usize])),
        State::Rows(table) => State::Rows(table),
        State::Count(count) => State::Count(count),
        State::Group(counts) => State::Group(counts),
    }
}

/// What a fold has with all rows more of a batch, by a flag for each.
fn by_mask(
    alloc: Global,
    fold: &FoldKind,
    state: State,
    given: u64,
    columns: &[Column],
    rows: usize,
) -> Result<State, NoMemory>
    requires places { FoldInBounds (length columns.now) fold.now }
    requires rows { All (λ column. length column ≡ rows) columns.now }
    requires few { given + rows < 2 ^ 63 }
    requires bound { SumOfFew given (sum_in state) }
    ensures state { IfOk result (λ new. new ≡ with_rows fold.now state (rows_of rows columns.now)) }
    ensures bound { IfOk result (λ new. SumOfFew (given + rows) (sum_in new)) }
{
    let Ok(mut mask) = vec![in alloc; true; rows] else {
        return Err(NoMemory);
    };
    with_kept_rows(alloc, fold, state, given, columns, &mut mask)
}
