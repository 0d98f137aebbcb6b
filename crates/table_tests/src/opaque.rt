//! A column that nobody reads, between two that are written.
ghost use Rattle.std.specs.Prelude.{◌≤◌, All, IfSome};
ghost use Rattle.orc_writer.specs.Writing.{IsFresh};

use crate::one_file::prints;
use crate::writers::{Column, made, push, writer_of};
use orc_columns::Value;
use orc_writer::{OpaqueStream, Spelling, Writer};
use outside::{Bytes, MemorySink, NoMemory};
use std::alloc::Global;

/// Two stripes of two rows and one. Each has DATA of the column 1, then PRESENT of the LIST 2 and DATA of its child 3, then DATA of the
/// column 4; all encodings are DIRECT.
const FILE: &[u8] = b"ORC\xFE\x02\x04PQxyz\xFE\x06\x08\
\x0A\x06\x08\x01\x10\x01\x18\x03\x0A\x06\x08\x00\x10\x02\x18\x02\x0A\x06\x08\x01\x10\x03\x18\x03\x0A\x06\x08\x01\x10\x04\x18\x03\
\x12\x02\x08\x00\x12\x02\x08\x00\x12\x02\x08\x00\x12\x02\x08\x00\x12\x02\x08\x00\
\xFF\x0APQxyz\xFF\x0C\
\x0A\x06\x08\x01\x10\x01\x18\x02\x0A\x06\x08\x00\x10\x02\x18\x02\x0A\x06\x08\x01\x10\x03\x18\x03\x0A\x06\x08\x01\x10\x04\x18\x02\
\x12\x02\x08\x00\x12\x02\x08\x00\x12\x02\x08\x00\x12\x02\x08\x00\x12\x02\x08\x00";

const PRINTED: &[u8] = b"r rows 3
1\t3
2\t4
5\t6
";

const ONE_PRINTED: &[u8] = b"r rows 1
1
";

/// The columns beside it, and their rows.
const COLUMNS: [Column; 2] = [(b"a", 4, Spelling::Direct), (b"c", 4, Spelling::Direct)];

const ROWS: [(i64, i64); 3] = [(1, 3), (2, 4), (5, 6)];

/// A stream of the column, or of its only child.
fn stream_of(alloc: Global, kind: u64, child: u32, bytes: &[u8]) -> Option<OpaqueStream>
    requires { child ≤ 1 }
    ensures { IfSome result (λ stream. stream.child ≤ 1) }
{
    let bytes = Bytes::new(Vec::from_slice(alloc, bytes).ok()?);
    Some(OpaqueStream { kind, child, bytes })
}

/// PRESENT of the column, and DATA of its child.
fn streams(alloc: Global) -> Option<Vec<OpaqueStream>>
    ensures { IfSome result (λ streams. All (λ stream. stream.child ≤ 1) streams.items) }
{
    let mut streams = Vec::new(alloc);
    streams.push(stream_of(alloc, 0, 0, b"PQ")?).ok()?;
    streams.push(stream_of(alloc, 1, 1, b"xyz")?).ok()?;
    Some(streams)
}

/// Adds a LIST of LONG in front of the second written column.
fn push_list(alloc: Global, writer: &mut Writer) -> Option<()>
    requires { IsFresh writer.old }
{
    if writer.written_columns() < 1 {
        return None;
    }
    let name = Bytes::new(Vec::from_slice(alloc, b"o").ok()?);
    let mut children = Vec::new(alloc);
    children.push(4).ok()?;
    writer
        .push_opaque(1, name, 10, children, streams(alloc)?)
        .ok()
}

/// Adds the first row, or where memory is refused for it the LIST: no row was pushed then, so it may still stand.
fn push_row_or_list(alloc: Global, writer: &mut Writer, row: &[Value]) -> Option<()>
    requires { IsFresh writer.old }
{
    if !writer.takes(row) {
        return None;
    }
    match writer.push_row(row) {
        Ok(()) => Some(()),
        Err(NoMemory) => push_list(alloc, writer),
    }
}

/// Adds the three rows.
fn push_rows(writer: &mut Writer) -> Option<()> {
    for (first, second) in &ROWS {
        push(writer, &[Value::Int(*first), Value::Int(*second)])?;
    }
    Some(())
}

/// The file of two columns and the LIST between them.
fn file_of(alloc: Global) -> Option<MemorySink> {
    let mut writer = writer_of(alloc, &COLUMNS, 2)?;
    push_list(alloc, &mut writer)?;
    push_rows(&mut writer)?;
    made(alloc, writer)
}

/// Whether its streams stand in each stripe, and the rows beside it are read back.
fn is_kept(alloc: Global) -> Option<bool> {
    let file = file_of(alloc)?;
    let bytes = file.written()?;
    Some(bytes.starts_with(FILE) && prints(alloc, bytes, "r rows a,c from t.orc", PRINTED)?)
}

/// The file of one column with one row, or with none and the LIST.
fn one_row(alloc: Global) -> Option<MemorySink> {
    let mut writer = writer_of(alloc, &[(b"a", 4, Spelling::Direct)], 2)?;
    push_row_or_list(alloc, &mut writer, &[Value::Int(1)])?;
    made(alloc, writer)
}

/// Whether a first row stands alone where it isn't refused.
fn is_alone(alloc: Global) -> Option<bool> {
    let file = one_row(alloc)?;
    prints(alloc, file.written()?, "r rows a from t.orc", ONE_PRINTED)
}

#[test]
fn a_first_row_that_is_not_refused_stands_alone(rt: HostRuntime) {
    assert!(rt; is_alone(rt.alloc()) == Some(true));
}

#[test]
fn a_column_that_nobody_reads_is_kept(rt: HostRuntime) {
    assert!(rt; is_kept(rt.alloc()) == Some(true));
}

/// Whether a row is taken that has a value for each column but the LIST, and none that is shorter, longer or of another kind.
fn takes_rows_that_fit(alloc: Global) -> Option<bool> {
    let mut writer = writer_of(alloc, &COLUMNS, 2)?;
    push_list(alloc, &mut writer)?;
    let fits = writer.takes(&[Value::Int(1), Value::Null]);
    let short = writer.takes(&[Value::Int(1)]);
    let long = writer.takes(&[Value::Int(1), Value::Null, Value::Int(3)]);
    let other = writer.takes(&[Value::Int(1), Value::Bool(true)]);
    Some(fits && !short && !long && !other)
}

#[test]
fn rows_that_do_not_fit_are_not_taken(rt: HostRuntime) {
    assert!(rt; takes_rows_that_fit(rt.alloc()) == Some(true));
}
