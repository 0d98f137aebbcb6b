//! The columns by their names, in the order in which the line first names them.
ghost use Rattle.std.specs.Prelude.{◌≡◌, ◌≤◌, ◌+◌, length, option_copied, IfOk};
ghost use Rattle.orc_tail.specs.Tail.{column_named as first_column};
ghost use Rattle.fragment_meaning.specs.ScanColumns.{columns_named, first_misfit, scan_columns};
ghost use Rattle.scan_columns.specs.Found.{Judges, read_as, or_missing};

use crate::serving::serves;
use fragment_outcome::Failure;
use fragment_plan::Scan;
use orc_streams::ReadColumn;
use orc_tail::{Tail, column_named};
use orc_walk::Stop;
use outside::{Bytes, Name, NoMemory};
use std::alloc::Global;

/// A copy of a name.
fn copy_of(alloc: Global, name: &Name) -> Result<Bytes, NoMemory>
    ensures { IfOk result (λ bytes. bytes ≡ name.now) }
{
    let mut copy = Vec::new(alloc);
    match copy.extend_from_slice(name.as_str().as_bytes()) {
        Ok(()) => Ok(Bytes::new(copy)),
        Err(_) => Err(NoMemory),
    }
}

/// The file's column of a name, or that it has none.
fn column_of(alloc: Global, tail: &Tail, name: &Name) -> Result<ReadColumn, Stop<Failure>>
    ensures { Judges (λ column. column) (read_as name.now (first_column name.now tail.now.columns)) result }
{
    match column_named(tail, name.as_str()) {
        Some(column) => Ok(ReadColumn {
            number: column.number,
            kind: column.kind,
        }),
        None => match copy_of(alloc, name) {
            Ok(name) => Err(Stop::Fault(Failure::NoColumn(name))),
            Err(NoMemory) => Err(Stop::NoMemory),
        },
    }
}

/// The file's columns of these names, or the first name that none of them has.
fn columns_of(alloc: Global, tail: &Tail, names: &[Name]) -> Result<Vec<ReadColumn>, Stop<Failure>>
    ensures columns { Judges (λ columns. columns.items) (or_missing (columns_named tail.now.columns names.now)) result }
    ensures width { IfOk result (λ columns. length columns.items ≡ length names.now) }
{
    let mut columns = Vec::new(alloc);
    for name in names {
        let column = match column_of(alloc, tail, name) {
            Ok(column) => column,
            Err(why) => return Err(why),
        };
        let Ok(()) = columns.push(column) else {
            return Err(Stop::NoMemory);
        };
    }
    Ok(columns)
}

/// The name of the first column, from an index on, that doesn't serve the scan.
fn misfit<'a>(
    scan: &Scan,
    index: usize,
    names: &'a [Name],
    columns: &[ReadColumn],
) -> Option<&'a Name>
    requires few { index + length names.now ≤ 16 }
    ensures { option_copied result ≡ first_misfit scan.now index names.now columns.now }
{
    let Some((name, names)) = names.split_first() else {
        return None;
    };
    let Some((column, columns)) = columns.split_first() else {
        return None;
    };
    if serves(scan, index, column.kind) {
        misfit(scan, index + 1, names, columns)
    } else {
        Some(name)
    }
}

/// The columns of a file that a scan names, one for each name and in that order, or why it can't read them.
///
/// A scan has at most 16 names. It fails by `NoColumn` of the first name that no column has, and else by `WrongKind` of the first
/// whose column is of a kind that the scan can't read: so each missing column comes before each of a wrong kind. Two names may have
/// one column. It reads nothing, and `NoMemory` comes only where memory was refused.
///
/// Source: this project's own; which column a name has is by the Apache ORC specification v1, "Type Information".
pub fn find_columns(
    alloc: Global,
    scan: &Scan,
    tail: &Tail,
) -> Result<Vec<ReadColumn>, Stop<Failure>>
    requires few { length scan.now.columns ≤ 16 }
    ensures columns { Judges (λ columns. columns.items) (scan_columns scan.now tail.now.columns) result }
    ensures width { IfOk result (λ columns. length columns.items ≡ length scan.now.columns) }
{
    let names = scan.columns.as_slice();
    let columns = match columns_of(alloc, tail, names) {
        Ok(columns) => columns,
        Err(why) => return Err(why),
    };
    match misfit(scan, 0, names, columns.as_slice()) {
        None => Ok(columns),
        Some(name) => match copy_of(alloc, name) {
            Ok(name) => Err(Stop::Fault(Failure::WrongKind(name))),
            Err(NoMemory) => Err(Stop::NoMemory),
        },
    }
}
