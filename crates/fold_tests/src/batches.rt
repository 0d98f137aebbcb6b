//! Batches as they stand in the tables of tests.
ghost use Rattle.std.specs.Prelude.{◌≡◌, ◌<◌, true, length, All};
ghost use Rattle.orc_values.specs.Chosen.{places_of};

use fragment_folds::Fold;
use fragment_plan::FoldKind;
use orc_values::{ChosenTexts, Column, ColumnValues, Dictionary, Texts, count_present, entry_at};
use std::alloc::Global;

/// A column of these values, which stand in the rows of a text other than `_`.
fn column(alloc: Global, text: &str, values: ColumnValues) -> Option<Column> {
    let present = present_of(alloc, text)?;
    if count_present(&present) != values.len() {
        return None;
    }
    Some(Column::new(present, values))
}

fn present_of(alloc: Global, text: &str) -> Option<Vec<bool>> {
    let mut present = Vec::new(alloc);
    for value in text.split(',') {
        present.push(value != "_").ok()?;
    }
    Some(present)
}

fn numbers_of(alloc: Global, text: &str) -> Option<Vec<i64>> {
    let mut numbers = Vec::new(alloc);
    for value in text.split(',') {
        if value != "_" {
            numbers.push(value.parse::<i64>().unwrap_or(0)).ok()?;
        }
    }
    Some(numbers)
}

fn ints(alloc: Global, text: &str) -> Option<ColumnValues> {
    Some(ColumnValues::Ints(numbers_of(alloc, text)?))
}

fn bools(alloc: Global, text: &str) -> Option<ColumnValues> {
    let mut entries = Vec::new(alloc);
    for value in text.split(',') {
        if value != "_" {
            entries.push(value == "1").ok()?;
        }
    }
    Some(ColumnValues::Bools(entries))
}

/// The texts of these values, which are parted so.
fn texts_of(alloc: Global, text: &str, parted: char) -> Option<Texts> {
    let mut texts = Texts::empty(alloc);
    for value in text.split(parted) {
        if value != "_" {
            texts.push(value.as_bytes()).ok()?;
        }
    }
    Some(texts)
}

/// Texts by the numbers of a dictionary's entries.
fn chosen(alloc: Global, entries: &str, numbers: &str) -> Option<ColumnValues> {
    let entries = Dictionary::new(alloc, texts_of(alloc, entries, '+')?).ok()?;
    let numbers = numbers_of(alloc, numbers)?;
    if !are_within(&numbers, entries.len()) {
        return None;
    }
    Some(ColumnValues::Chosen(ChosenTexts::new(entries, numbers)))
}

/// Whether each number is that of one of so many entries.
fn are_within(numbers: &[i64], entries: usize) -> bool
    ensures { result ≡ true → All (λ place. place < entries) (places_of numbers.now) }
{
    for place in 0..numbers.len() {
        if entry_at(numbers, place) >= entries {
            return false;
        }
    }
    true
}

/// The column of a text: a kind and its values parted by commas, `_` where there is none. In front of the numbers of a dictionary's entries
/// stand the entries, parted by `+`, and a colon.
fn column_of(alloc: Global, text: &str) -> Option<Column> {
    let (kind, values) = text.split_at_checked(1)?;
    match kind {
        "i" => column(alloc, values, ints(alloc, values)?),
        "b" => column(alloc, values, bools(alloc, values)?),
        "t" => column(
            alloc,
            values,
            ColumnValues::Texts(texts_of(alloc, values, ',')?),
        ),
        "d" => {
            let (entries, numbers) = values.split_once(':')?;
            column(alloc, numbers, chosen(alloc, entries, numbers)?)
        }
        _ => None,
    }
}

/// The columns of a batch, parted by semicolons.
fn columns_of(alloc: Global, text: &str) -> Option<Vec<Column>> {
    let mut columns = Vec::new(alloc);
    for text in text.split(';') {
        columns.push(column_of(alloc, text)?).ok()?;
    }
    Some(columns)
}

/// Whether each column has so many rows.
fn are_long(columns: &[Column], rows: usize) -> bool
    ensures { result ≡ true → All (λ column. length column ≡ rows) columns.now }
{
    for column in columns {
        if column.len() != rows {
            return false;
        }
    }
    true
}

/// Folds the rows of a batch; a number behind `#` is so many rows without a value.
pub fn give(alloc: Global, fold: &mut Fold, text: &str) -> Option<()> {
    if let Some(rows) = text.strip_prefix('#') {
        return count(fold, rows.parse::<u64>().ok()?);
    }
    let columns = columns_of(alloc, text)?;
    give_columns(alloc, fold, &columns)
}

fn give_columns(alloc: Global, fold: &mut Fold, columns: &[Column]) -> Option<()> {
    let rows = columns.first()?.len();
    if rows > 1000 || fold.rows() > 1000 || !are_long(columns, rows) {
        return None;
    }
    if fold.scan().columns.as_slice().len() != columns.len() {
        return None;
    }
    fold.fold_batch(alloc, columns).ok()
}

fn count(fold: &mut Fold, rows: u64) -> Option<()> {
    if !fold.scan().tests.as_slice().is_empty() {
        return None;
    }
    match &fold.scan().fold {
        FoldKind::Count => {}
        _ => return None,
    }
    fold.fold_count(rows);
    Some(())
}
