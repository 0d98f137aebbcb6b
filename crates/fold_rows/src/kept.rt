//! What a batch brings to a fold, once it is known which of its rows pass.
ghost use Rattle.std.specs.Prelude.{◌≡◌, ◌<◌, ◌+◌, ◌^◌, [], length, replicate, get_or, take, false};
ghost use Rattle.std.specs.Prelude.{if◌then◌else◌, All, IfOk, OnOk};
ghost use Rattle.orc_values.specs.Column.{column_of, present_of};
ghost use Rattle.orc_values.specs.Woven.{present_count};
ghost use Rattle.orc_values.specs.declared.column_values.ColumnValues.TheVariants as list;
ghost use Rattle.orc_values.specs.declared.value.Value.TheVariants as value;
ghost use Rattle.batch_masks.specs.Kept.{kept};
ghost use Rattle.batch_masks.specs.Totals.{SumOfFew};
ghost use Rattle.fragment_plan.specs.Bounds.{FoldInBounds};
ghost use Rattle.fragment_plan.specs.declared.fragment.FoldKind.TheVariants as kind;
ghost use Rattle.group_counts.specs.Order.{value_cmp};
ghost use Rattle.group_counts.specs.Tally.{added, added_all};
ghost use Rattle.fold_rows.specs.States.{once, kept_rows, with_rows, sum_in};

use crate::picks::push_kept;
use crate::state::State;
use batch_masks::with_kept;
use fragment_plan::FoldKind;
use group_counts::{Counts, Seen};
use orc_values::{ChosenTexts, Column, ColumnValues, count_present};
use outside::NoMemory;
use std::alloc::Global;

/// Counts a row's value, where its flag is set: in the batch's table, or by itself. So many of the rows in front of it have a value.
fn count_row<'a>(
    alloc: Global,
    counts: &mut Counts,
    seen: &mut Seen<'a>,
    column: &'a Column,
    mask: &[bool],
    row: usize,
    before: usize,
) -> Result<(), NoMemory>
    requires rows { length mask.now ≡ length column.now }
    requires row { row < length mask.now }
    requires before { before ≡ present_count (take row (present_of column.now)) }
    ensures { OnOk result (added_all value_cmp counts.new seen.new ≡ (if get_or mask.now row false
        then added value_cmp (added_all value_cmp counts.old seen.old) (get_or column.now row value.Null) 1
        else added_all value_cmp counts.old seen.old)) }
{
    if !mask[row] {
        return Ok(());
    }
    counts.add_seen(alloc, seen, column.get_behind(row, before))
}

/// Counts with each value more of a column's rows whose flag is set.
fn count_kept(
    alloc: Global,
    counts: Counts,
    column: &Column,
    mask: &[bool],
) -> Result<Counts, NoMemory>
    requires { length mask.now ≡ length column.now }
    ensures { IfOk result (λ new. new ≡ added_all value_cmp counts (once (kept mask.now column.now))) }
{
    match column.values() {
        ColumnValues::Chosen(texts) => count_chosen(alloc, counts, column, texts, mask),
        ColumnValues::Bools(_) => count_each(alloc, counts, column, mask),
        ColumnValues::Ints(_) => count_each(alloc, counts, column, mask),
        ColumnValues::Texts(_) => count_each(alloc, counts, column, mask),
    }
}

/// The same of a column whose values are texts of a dictionary, lent beside it: each is counted by the number of its entry.
///
/// A dictionary that has more entries than the batch has rows would cost more than the rows, since each entry has a count.
fn count_chosen(
    alloc: Global,
    counts: Counts,
    column: &Column,
    texts: &ChosenTexts,
    mask: &[bool],
) -> Result<Counts, NoMemory>
    requires rows { length mask.now ≡ length column.now }
    requires count { length texts.now ≡ present_count (present_of column.now) }
    requires values { column_of (present_of column.now) (list.Chosen texts.now) ≡ column.now }
    ensures { IfOk result (λ new. new ≡ added_all value_cmp counts (once (kept mask.now column.now))) }
{
    let (entries, _) = texts.parts();
    if entries.len() > mask.len() {
        return count_each(alloc, counts, column, mask);
    }
    let mut now = counts;
    now.add_chosen(alloc, column.present(), texts, mask)?;
    Ok(now)
}

/// The same value by value.
///
/// Values that come again in the batch are counted in a table of its own, and go to the counts once.
fn count_each(
    alloc: Global,
    counts: Counts,
    column: &Column,
    mask: &[bool],
) -> Result<Counts, NoMemory>
    requires { length mask.now ≡ length column.now }
    ensures { IfOk result (λ new. new ≡ added_all value_cmp counts (once (kept mask.now column.now))) }
{
    let mut now = counts;
    let mut seen = Seen::new(alloc)?;
    let present = column.present();
    let mut before = 0;
    for row in 0..mask.len() {
        count_row(alloc, &mut now, &mut seen, column, mask, row, before)?;
        before += usize::from(present[row]);
    }
    now.add_all_seen(alloc, &seen)?;
    Ok(now)
}

/// What a fold that keeps rows has with those rows more whose flag is set.
fn rows_with(
    alloc: Global,
    places: &[u32],
    state: State,
    columns: &[Column],
    mask: &[bool],
) -> Result<State, NoMemory>
    requires places { All (λ place. place < length columns.now) places.now }
    requires rows { All (λ column. length column ≡ length mask.now) columns.now }
    ensures state { IfOk result (λ new. new ≡ with_rows (kind.Rows places.now) state (kept_rows mask.now columns.now)) }
    ensures sum { IfOk result (λ new. sum_in new ≡ sum_in state) }
{
    match state {
        State::Rows(table) => match push_kept(alloc, table, places, columns, mask) {
            Ok(table) => Ok(State::Rows(table)),
            Err(_) => Err(NoMemory),
        },
        State::Count(count) => Ok(State::Count(count)),
        State::Sum(total) => Ok(State::Sum(total)),
        State::Group(counts) => Ok(State::Group(counts)),
    }
}

/// What a fold that counts has with so many rows more.
pub fn count_with(state: State, more: u64) -> State
    ensures state { result ≡ with_rows kind.Count state (replicate more []) }
    ensures sum { sum_in result ≡ sum_in state }
{
    match state {
        State::Count(count) => State::Count(count.saturating_add(more)),
        State::Rows(table) => State::Rows(table),
        State::Sum(total) => State::Sum(total),
        State::Group(counts) => State::Group(counts),
    }
}

/// What a fold that sums has with those rows more whose flag is set.
fn sum_with(place: u32, state: State, given: u64, columns: &[Column], mask: &mut [bool]) -> State
    requires place { place < length columns.now }
    requires rows { All (λ column. length column ≡ length mask.old) columns.now }
    requires few { given + length mask.old < 2 ^ 63 }
    requires bound { SumOfFew given (sum_in state) }
    ensures state { result ≡ with_rows (kind.Sum place) state (kept_rows mask.old columns.now) }
    ensures bound { SumOfFew (given + length mask.old) (sum_in result) }
{
    match state {
        State::Sum(total) => State::Sum(with_kept(total, given, mask, &columns[place as usize])),
        State::Rows(table) => State::Rows(table),
        State::Count(count) => State::Count(count),
        State::Group(counts) => State::Group(counts),
    }
}

/// What a fold that groups has with those rows more whose flag is set.
fn group_with(
    alloc: Global,
    place: u32,
    state: State,
    columns: &[Column],
    mask: &[bool],
) -> Result<State, NoMemory>
    requires place { place < length columns.now }
    requires rows { All (λ column. length column ≡ length mask.now) columns.now }
    ensures state { IfOk result (λ new. new ≡ with_rows (kind.Group place) state (kept_rows mask.now columns.now)) }
    ensures sum { IfOk result (λ new. sum_in new ≡ sum_in state) }
{
    match state {
        State::Group(counts) => {
            match count_kept(alloc, counts, &columns[place as usize], mask) {
                Ok(counts) => Ok(State::Group(counts)),
                Err(_) => Err(NoMemory),
            }
        }
        State::Rows(table) => Ok(State::Rows(table)),
        State::Count(count) => Ok(State::Count(count)),
        State::Sum(total) => Ok(State::Sum(total)),
    }
}

/// What a fold has with those rows more of a batch whose flag is set.
///
/// Refuses only for want of memory, and then the state is gone.
/// The mask has a flag for each row, and is used up. `given` is how many rows the fold was given before, at least.
pub fn with_kept_rows(
    alloc: Global,
    fold: &FoldKind,
    state: State,
    given: u64,
    columns: &[Column],
    mask: &mut [bool],
) -> Result<State, NoMemory>
    requires places { FoldInBounds (length columns.now) fold.now }
    requires rows { All (λ column. length column ≡ length mask.old) columns.now }
    requires few { given + length mask.old < 2 ^ 63 }
    requires bound { SumOfFew given (sum_in state) }
    ensures state { IfOk result (λ new. new ≡ with_rows fold.now state (kept_rows mask.old columns.now)) }
    ensures bound { IfOk result (λ new. SumOfFew (given + length mask.old) (sum_in new)) }
{
    match fold {
        FoldKind::Rows(places) => rows_with(alloc, places.as_slice(), state, columns, mask),
        FoldKind::Count => Ok(count_with(state, count_present(mask) as u64)),
        FoldKind::Sum(place) => Ok(sum_with(*place, state, given, columns, mask)),
        FoldKind::Group(place) => group_with(alloc, *place, state, columns, mask),
    }
}
