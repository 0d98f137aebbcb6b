//! The rows that a fold keeps: the listed columns of each.
//!
//! Where a row is null, its column has no value for it: so a row's value is found by how many of the rows in front of it have one. The
//! rows are taken in their order, and each count goes on from the last row that was kept.
ghost use Rattle.std.specs.Prelude.{◌≡◌, ◌<◌, ◌≤◌, ◌∷◌, ◌++◌, [], length, map, get_or, slice_range, take, false};
ghost use Rattle.std.specs.Prelude.{if◌then◌else◌, All, IfOk};
ghost use Rattle.orc_values.specs.Column.{present_of};
ghost use Rattle.orc_values.specs.Woven.{present_count};
ghost use Rattle.batch_masks.specs.Rows.{field, row_at};
ghost use Rattle.fold_rows.specs.Behind.{behind, behind_each};
ghost use Rattle.fold_rows.specs.States.{picked, kept_rows};

use fragment_outcome::{Row, Table};
use orc_values::{Column, Value, count_present};
use outside::NoMemory;
use std::alloc::Global;

/// How many of the rows in front of a row have a value, where so many have one in front of an earlier row.
fn count_on(column: &Column, before: usize, earlier: usize, row: usize) -> usize
    requires order { earlier ≤ row }
    requires row { row ≤ length column.now }
    requires before { before ≡ present_count (take earlier (present_of column.now)) }
    ensures { result ≡ present_count (take row (present_of column.now)) }
{
    if column.count() == column.len() {
        return row;
    }
    before + count_between(column.present(), earlier, row)
}

/// How many flags are set from one row on to another.
fn count_between(flags: &[bool], earlier: usize, row: usize) -> usize
    requires order { earlier ≤ row }
    requires row { row ≤ length flags.now }
    ensures { result ≡ present_count (slice_range flags.now earlier row) }
{
    count_present(&flags[earlier..row])
}

/// How many of the rows in front of a row have a value in the column at a place, where so many have one in front of an earlier row.
fn count_at(columns: &[Column], place: u32, before: usize, earlier: usize, row: usize) -> usize
    requires place { place < length columns.now }
    requires order { earlier ≤ row }
    requires row { All (λ column. row < length column) columns.now }
    requires before { before ≡ behind columns.now earlier place }
    ensures { result ≡ behind columns.now row place }
{
    count_on(&columns[place as usize], before, earlier, row)
}

/// Goes on to a row with the counts of the listed columns.
fn go_on(befores: &mut [usize], places: &[u32], columns: &[Column], earlier: usize, row: usize)
    requires places { All (λ place. place < length columns.now) places.now }
    requires order { earlier ≤ row }
    requires row { All (λ column. row < length column) columns.now }
    requires befores { befores.old ≡ behind_each columns.now earlier places.now }
    ensures { befores.new ≡ behind_each columns.now row places.now }
{
    let Some((place, places)) = places.split_first() else {
        return;
    };
    let Some((before, befores)) = befores.split_first_mut() else {
        return;
    };
    *before = count_at(columns, *place, *before, earlier, row);
    go_on(befores, places, columns, earlier, row);
}

/// The value of a row in a column, where so many of the rows in front of it have one.
fn value_at(
    alloc: Global,
    columns: &[Column],
    place: u32,
    row: usize,
    before: usize,
) -> Result<Value, NoMemory>
    requires place { place < length columns.now }
    requires row { All (λ column. row < length column) columns.now }
    requires before { before ≡ behind columns.now row place }
    ensures { IfOk result (λ v. v ≡ field (row_at columns.now row) place) }
{
    columns[place as usize]
        .get_behind(row, before)
        .to_value(alloc)
}

/// The listed columns of a row.
fn row_of(
    alloc: Global,
    places: &[u32],
    columns: &[Column],
    row: usize,
    befores: &[usize],
) -> Result<Row, NoMemory>
    requires places { All (λ place. place < length columns.now) places.now }
    requires row { All (λ column. row < length column) columns.now }
    requires befores { befores.now ≡ behind_each columns.now row places.now }
    ensures { IfOk result (λ picks. picks ≡ picked places.now (row_at columns.now row)) }
{
    let Ok(mut values) = Vec::with_capacity(alloc, places.len()) else {
        return Err(NoMemory);
    };
    for pick in 0..places.len() {
        let value = value_at(alloc, columns, places[pick], row, befores[pick])?;
        if values.push(value).is_err() {
            return Err(NoMemory);
        }
    }
    Ok(Row::new(values))
}

/// Rows with the listed columns more of a row.
fn push_row(
    alloc: Global,
    rows: Vec<Row>,
    places: &[u32],
    columns: &[Column],
    row: usize,
    befores: &[usize],
) -> Result<Vec<Row>, NoMemory>
    requires places { All (λ place. place < length columns.now) places.now }
    requires row { All (λ column. row < length column) columns.now }
    requires befores { befores.now ≡ behind_each columns.now row places.now }
    ensures { IfOk result (λ new. new.items ≡ rows.items ++ picked places.now (row_at columns.now row) ∷ []) }
{
    let mut rows = rows;
    let picks = row_of(alloc, places, columns, row, befores)?;
    match rows.push(picks) {
        Ok(()) => Ok(rows),
        Err(_) => Err(NoMemory),
    }
}

/// Rows with the listed columns more of each row whose flag is set. It begins with the counts in front of the first row.
fn push_each(
    alloc: Global,
    rows: Vec<Row>,
    places: &[u32],
    columns: &[Column],
    mask: &[bool],
    befores: &mut [usize],
) -> Result<Vec<Row>, NoMemory>
    requires places { All (λ place. place < length columns.now) places.now }
    requires rows { All (λ column. length column ≡ length mask.now) columns.now }
    requires befores { befores.old ≡ behind_each columns.now 0 places.now }
    ensures { IfOk result (λ new. new.items ≡ rows.items ++ map (picked places.now) (kept_rows mask.now columns.now)) }
{
    let mut rows = rows;
    let mut earlier = 0;
    for row in 0..mask.len() {
        if !mask[row] {
            continue;
        }
        go_on(befores, places, columns, earlier, row);
        earlier = row;
        rows = push_row(alloc, rows, places, columns, row, befores)?;
    }
    Ok(rows)
}

/// A table with the listed columns more of each row whose flag is set.
pub(crate) fn push_kept(
    alloc: Global,
    table: Table,
    places: &[u32],
    columns: &[Column],
    mask: &[bool],
) -> Result<Table, NoMemory>
    requires places { All (λ place. place < length columns.now) places.now }
    requires rows { All (λ column. length column ≡ length mask.now) columns.now }
    ensures { IfOk result (λ new. new ≡ table ++ map (picked places.now) (kept_rows mask.now columns.now)) }
{
    let Ok(mut befores) = vec![in alloc; 0usize; places.len()] else {
        return Err(NoMemory);
    };
    match push_each(alloc, table.into_vec(), places, columns, mask, &mut befores) {
        Ok(rows) => Ok(Table::new(rows)),
        Err(_) => Err(NoMemory),
    }
}
