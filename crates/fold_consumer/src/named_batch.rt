//! A batch in the order of the scan's names.
//!
//! Batches come by ascending numbers of the columns, and a fold wants them as its scan names them. So the columns are swapped into a
//! list of their own, folded, and swapped back, where their memory is used again. Where two names have one column, all but the last
//! of them get a copy.
ghost use Rattle.std.specs.Prelude.{◌≡◌, ◌≢◌, ◌<◌, ◌+◌, ◌^◌, ◌++◌, ◌==◌, ℕ, [], length, IfOk, OnOk};
ghost use Rattle.std.specs.List.{list_any};
ghost use Rattle.orc_batches.specs.Batch.{IsBatch, columns as of_columns};
ghost use Rattle.orc_rows.specs.Given.{kinds_in};
ghost use Rattle.fragment_folds.specs.Folding.{rows_in};
ghost use Rattle.fragment_meaning.specs.ScanColumns.{by_number, values_at};
ghost use Rattle.fold_consumer.specs.Pieces.{in_order, with_piece};

use crate::copies::copy_column;
use fragment_folds::Fold;
use orc_streams::ReadColumn;
use orc_values::Column;
use outside::NoMemory;
use std::alloc::Global;
use std::mem;

/// Swaps the batch of the column of that number with other values.
fn swap_at(number: u32, read: &[ReadColumn], columns: &mut [Column], values: &mut Column)
    ensures given { values.old ≡ [] → values.new ≡ values_at number read.now columns.old }
    ensures others { (other : ℕ) → other ≢ number → values_at other read.now columns.new ≡ values_at other read.now columns.old }
    ensures as_many { length columns.new ≡ length columns.old }
{
    let Some((column, others)) = read.split_first() else {
        return;
    };
    let Some((batch, batches)) = columns.split_first_mut() else {
        return;
    };
    if column.number == number {
        mem::swap(batch, values);
    } else {
        swap_at(number, others, batches, values);
    }
}

/// A copy of the batch of the column of that number.
fn copy_at(
    alloc: Global,
    number: u32,
    read: &[ReadColumn],
    columns: &[Column],
) -> Result<Column, NoMemory>
    ensures { IfOk result (λ copy. copy ≡ values_at number read.now columns.now) }
{
    let Some((column, others)) = read.split_first() else {
        return Ok(Column::empty(alloc));
    };
    let Some((batch, batches)) = columns.split_first() else {
        return Ok(Column::empty(alloc));
    };
    if column.number == number {
        copy_column(alloc, batch)
    } else {
        copy_at(alloc, number, others, batches)
    }
}

/// Whether one of the columns has that number.
fn is_among(number: u32, columns: &[ReadColumn]) -> bool
    ensures { result ≡ list_any (λ column. column.number == number) columns.now }
{
    columns.iter().any(|column| column.number == number)
}

/// The batch of the first of some named columns: taken, or copied where another of them is the same column.
fn first_of(
    alloc: Global,
    column: ReadColumn,
    others: &[ReadColumn],
    read: &[ReadColumn],
    columns: &mut [Column],
) -> Result<Column, NoMemory>
    ensures given { IfOk result (λ values. values ≡ values_at column.number read.now columns.old) }
    ensures left { OnOk result (in_order read.now others.now columns.new ≡ in_order read.now others.now columns.old) }
    ensures as_many { length columns.new ≡ length columns.old }
{
    if is_among(column.number, others) {
        return copy_at(alloc, column.number, read, columns);
    }
    let mut values = Column::empty(alloc);
    swap_at(column.number, read, columns, &mut values);
    Ok(values)
}

/// Puts the batches of named columns behind others, in the order of the names.
fn gather(
    alloc: Global,
    named: &[ReadColumn],
    read: &[ReadColumn],
    columns: &mut [Column],
    picked: Vec<Column>,
) -> Result<Vec<Column>, NoMemory>
    ensures gathered { IfOk result (λ all. all.items ≡ picked.items ++ in_order read.now named.now columns.old) }
    ensures as_many { length columns.new ≡ length columns.old }
{
    let mut picked = picked;
    let Some((column, others)) = named.split_first() else {
        return Ok(picked);
    };
    let values = first_of(alloc, *column, others, read, columns)?;
    let Ok(()) = picked.push(values) else {
        return Err(NoMemory);
    };
    gather(alloc, others, read, columns, picked)
}

/// Puts the batches of named columns back.
fn put_back(
    named: &[ReadColumn],
    read: &[ReadColumn],
    columns: &mut [Column],
    picked: &mut [Column],
)
    ensures as_many { length columns.new ≡ length columns.old }
{
    let Some((column, others)) = named.split_first() else {
        return;
    };
    let Some((values, others_picked)) = picked.split_first_mut() else {
        return;
    };
    swap_at(column.number, read, columns, values);
    put_back(others, read, columns, others_picked);
}

/// Folds a batch of the columns that are read, by ascending numbers, in the order of their names.
///
/// What the columns hold afterwards is any.
pub(crate) fn fold_named(
    alloc: Global,
    fold: &mut Fold,
    named: &[ReadColumn],
    read: &[ReadColumn],
    rows: u32,
    columns: &mut [Column],
) -> Result<(), NoMemory>
    requires read { read.now ≡ by_number named.now }
    requires width { length named.now ≡ length fold.old.scan.columns }
    requires batch { IsBatch (kinds_in read.now) rows columns.old }
    requires few { fold.old.rows + rows_in columns.old < 2 ^ 63 }
    ensures folded { OnOk result (fold.new ≡ with_piece named.now fold.old (of_columns columns.old)) }
    ensures as_many { length columns.new ≡ length columns.old }
{
    let Ok(picked) = Vec::with_capacity(alloc, named.len()) else {
        return Err(NoMemory);
    };
    let mut picked = gather(alloc, named, read, columns, picked)?;
    fold.fold_batch(alloc, picked.as_slice())?;
    put_back(named, read, columns, picked.as_mut_slice());
    Ok(())
}
