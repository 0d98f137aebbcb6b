//! Copies of a column's batch, for a file that gives two of its names one column.
ghost use Rattle.std.specs.Prelude.{◌≡◌, Bool, List, IfOk};
ghost use Rattle.orc_values.specs.Column.{column_of, entries_in};

use orc_values::{Column, ColumnValues, Texts};
use outside::NoMemory;
use std::alloc::Global;

/// A copy of truth values.
fn copy_bools(alloc: Global, entries: &[bool]) -> Result<Vec<bool>, NoMemory>
    ensures { IfOk result (λ copy. copy.items ≡ entries.now) }
{
    let mut copy = Vec::new(alloc);
    match copy.extend_from_slice(entries) {
        Ok(()) => Ok(copy),
        Err(_) => Err(NoMemory),
    }
}

/// A copy of numbers.
fn copy_ints(alloc: Global, entries: &[i64]) -> Result<Vec<i64>, NoMemory>
    ensures { IfOk result (λ copy. copy.items ≡ entries.now) }
{
    let mut copy = Vec::new(alloc);
    match copy.extend_from_slice(entries) {
        Ok(()) => Ok(copy),
        Err(_) => Err(NoMemory),
    }
}

/// A copy of texts.
fn copy_texts(alloc: Global, texts: &Texts) -> Result<Texts, NoMemory>
    ensures { IfOk result (λ copy. copy ≡ texts.now) }
{
    let mut copy = Texts::empty(alloc);
    for row in 0..texts.len() {
        copy.push(texts.get(row))?;
    }
    Ok(copy)
}

/// A copy of a typed list. A dictionary is shared with it.
fn copy_values(alloc: Global, values: &ColumnValues) -> Result<ColumnValues, NoMemory>
    ensures rows { IfOk result (λ copy. entries_in copy ≡ entries_in values.now) }
    ensures values { IfOk result (λ copy. (present : List Bool) → column_of present copy ≡ column_of present values.now) }
{
    match values {
        ColumnValues::Bools(entries) => match copy_bools(alloc, entries.as_slice()) {
            Ok(copy) => Ok(ColumnValues::Bools(copy)),
            Err(NoMemory) => Err(NoMemory),
        },
        ColumnValues::Ints(entries) => match copy_ints(alloc, entries.as_slice()) {
            Ok(copy) => Ok(ColumnValues::Ints(copy)),
            Err(NoMemory) => Err(NoMemory),
        },
        ColumnValues::Texts(texts) => match copy_texts(alloc, texts) {
            Ok(copy) => Ok(ColumnValues::Texts(copy)),
            Err(NoMemory) => Err(NoMemory),
        },
        ColumnValues::Chosen(texts) => match texts.copy(alloc) {
            Ok(copy) => Ok(ColumnValues::Chosen(copy)),
            Err(NoMemory) => Err(NoMemory),
        },
    }
}

/// A copy of a column's batch.
pub(crate) fn copy_column(alloc: Global, column: &Column) -> Result<Column, NoMemory>
    ensures { IfOk result (λ copy. copy ≡ column.now) }
{
    let present = copy_bools(alloc, column.present())?;
    let values = copy_values(alloc, column.values())?;
    Ok(Column::new(present, values))
}
