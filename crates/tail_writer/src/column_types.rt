//! The types of a file's columns, numbered from the root on, each column's in front of its children's.

ghost use Rattle.std.specs.Prelude.{◌≡◌, ◌+◌, ◌++◌, ◌<◌, ◌^◌, map, length, IfOk};
ghost use Rattle.std.specs.List.{range_with_len};
ghost use Rattle.footer_writer.specs.Views.{file_type_view};
ghost use Rattle.tail_writer.specs.Columns.{leaf, column_types as types_at, types_of};

use crate::file_column::FileColumn;
use footer_writer::FileType;
use std::alloc::{AllocError, Global};

/// The kind's number of a STRUCT.
const STRUCT: u64 = 12;

/// So many numbers, from the first on.
fn numbers_from(alloc: Global, first: u64, count: usize) -> Result<Vec<u64>, AllocError>
    requires { first + count < 2 ^ 64 }
    ensures { IfOk result (λ numbers. numbers.items ≡ range_with_len first count) }
{
    let mut numbers = Vec::new(alloc);
    for i in 0..count {
        numbers.push(first + i as u64)?;
    }
    Ok(numbers)
}

/// The types and behind them one without children for each kind.
fn push_leaves<'a>(
    alloc: Global,
    types: Vec<FileType<'a>>,
    kinds: &[u64],
) -> Result<Vec<FileType<'a>>, AllocError>
    ensures { IfOk result (λ after. map file_type_view after.items ≡ map file_type_view types.entry.items ++ map leaf kinds.now) }
{
    let mut types = types;
    for kind in kinds {
        types.push(FileType {
            kind: *kind,
            subtypes: Vec::new(alloc),
            names: Vec::new(alloc),
        })?;
    }
    Ok(types)
}

/// The types and behind them the column's and its children's. The first of the types that are given has the number 1.
fn push_column<'a>(
    alloc: Global,
    types: Vec<FileType<'a>>,
    column: &FileColumn,
) -> Result<Vec<FileType<'a>>, AllocError>
    ensures { IfOk result (λ after. map file_type_view after.items
        ≡ map file_type_view types.entry.items ++ types_at (length types.entry.items + 1) column.now) }
{
    let mut types = types;
    let first = types.len() as u64 + 2;
    let subtypes = numbers_from(alloc, first, column.children.len())?;
    types.push(FileType {
        kind: column.kind,
        subtypes,
        names: Vec::new(alloc),
    })?;
    let all = push_leaves(alloc, types, &column.children)?;
    Ok(all)
}

/// The types of a file: the root, which is a STRUCT of the columns, and then the columns' types in order.
pub(crate) fn column_types(
    alloc: Global,
    columns: &[FileColumn],
) -> Result<Vec<FileType<'_>>, AllocError>
    ensures { IfOk result (λ types. map file_type_view types.items ≡ types_of columns.now) }
{
    let mut numbers = Vec::new(alloc);
    let mut names = Vec::new(alloc);
    let mut types = Vec::new(alloc);
    for column in columns {
        numbers.push(types.len() as u64 + 1)?;
        names.push(column.name.as_slice())?;
        types = push_column(alloc, types, column)?;
    }
    let root = FileType {
        kind: STRUCT,
        subtypes: numbers,
        names,
    };
    types.insert(0, root)?;
    Ok(types)
}
