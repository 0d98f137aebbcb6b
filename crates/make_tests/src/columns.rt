//! The streams of columns of a stripe.
ghost use Rattle.std.specs.Prelude.{◌≡◌, ◌+◌, ◌≤◌, ◌^◌, length, IfSome};
ghost use Rattle.orc_columns.specs.declared.spelling.Spelling.TheVariants as by;
ghost use Rattle.column_writer.specs.Buffered.{MayStand};

use column_writer::{ColumnBuffer, Encoded, push_row};
use orc_columns::{Spelling, Value, Version};
use outside::Bytes;
use std::alloc::Global;

/// The rows of a column, as numbers, of which 9 stands for null; and its streams, PRESENT, DATA, LENGTH and DICTIONARY_DATA.
struct Row {
    spelling: Spelling,
    rows: &'static [i64],
    streams: [&'static [u8]; 4],
    size: u64,
}

const ROWS: [Row; 6] = [
    Row {
        spelling: Spelling::Bits,
        rows: &[1, 0, 9, 1],
        streams: [b"\xFF\xD0", b"\xFF\xA0", b"", b""],
        size: 0,
    },
    Row {
        spelling: Spelling::Integers(Version::One),
        rows: &[1, 2, 3, 9, 5],
        streams: [b"\xFF\xE8", b"\x00\x01\x02\xFF\x0A", b"", b""],
        size: 0,
    },
    Row {
        spelling: Spelling::Integers(Version::Two),
        rows: &[4, 4, 4, 4],
        streams: [b"", b"\x01\x08", b"", b""],
        size: 0,
    },
    Row {
        spelling: Spelling::Texts(Version::Two),
        rows: &[0, 3, 9, 1],
        streams: [b"\xFF\xD0", b"defa", b"\x42\x02\x34", b""],
        size: 0,
    },
    Row {
        spelling: Spelling::Dictionary(Version::Two),
        rows: &[2, 1, 2, 9, 1, 0],
        streams: [b"\xFF\xEC", b"\x42\x04\x11\x80", b"\x42\x02\x90", b"bca"],
        size: 3,
    },
    Row {
        spelling: Spelling::Dictionary(Version::Two),
        rows: &[],
        streams: [b"", b"", b"", b""],
        size: 0,
    },
];

/// The value that a number stands for: null, a truth value, the number, or one of four texts.
fn value_of(alloc: Global, spelling: Spelling, number: i64) -> Option<Value>
    ensures { IfSome result (λ value. MayStand spelling value) }
{
    if number == 9 {
        return Some(Value::Null);
    }
    match spelling {
        Spelling::Bits => Some(Value::Bool(number == 1)),
        Spelling::Integers(_) => Some(Value::Int(number)),
        Spelling::Texts(_) | Spelling::Dictionary(_) => Some(Value::Text(text_of(alloc, number)?)),
    }
}

fn text_of(alloc: Global, number: i64) -> Option<Bytes> {
    let text = match number {
        0 => b"".as_slice(),
        1 => b"a".as_slice(),
        2 => b"bc".as_slice(),
        _ => b"def".as_slice(),
    };
    Some(Bytes::new(Vec::from_slice(alloc, text).ok()?))
}

/// Adds the value of a number to a buffer.
fn push_number(
    alloc: Global,
    buffer: &mut ColumnBuffer,
    spelling: Spelling,
    number: i64,
) -> Option<()>
    requires { buffer.old.spelling ≡ spelling }
    ensures { IfSome result (λ done. (buffer.new.spelling ≡ spelling) × (length buffer.new.rows ≡ length buffer.old.rows + 1)) }
{
    let value = value_of(alloc, spelling, number)?;
    push_value(buffer, &value)
}

fn push_value(buffer: &mut ColumnBuffer, value: &Value) -> Option<()>
    requires { MayStand buffer.old.spelling value.now }
    ensures { IfSome result (λ done. (buffer.new.spelling ≡ buffer.old.spelling) × (length buffer.new.rows ≡ length buffer.old.rows + 1)) }
{
    match buffer.push(value) {
        Ok(()) => Some(()),
        Err(_) => None,
    }
}

/// A buffer of these rows.
pub fn buffered(alloc: Global, spelling: Spelling, rows: &[i64]) -> Option<ColumnBuffer>
    ensures { IfSome result (λ buffer. length buffer.rows ≡ length rows.now) }
{
    let mut buffer = ColumnBuffer::new(alloc, spelling);
    for number in rows {
        push_number(alloc, &mut buffer, spelling, *number)?;
    }
    Some(buffer)
}

/// The streams of a column.
fn encoded(alloc: Global, row: &Row) -> Option<Encoded> {
    if row.rows.len() > 100 {
        return None;
    }
    buffered(alloc, row.spelling, row.rows)?.encode(alloc).ok()
}

/// Whether they are those that are wanted.
fn are_wanted(encoded: &Encoded, row: &Row) -> bool {
    encoded.present.as_slice() == row.streams[0]
        && encoded.body.as_slice() == row.streams[1]
        && encoded.lengths.as_slice() == row.streams[2]
        && encoded.dictionary.as_slice() == row.streams[3]
        && encoded.dictionary_size == row.size
}

fn all_are_written(alloc: Global) -> Option<bool> {
    for row in &ROWS {
        if !are_wanted(&encoded(alloc, row)?, row) {
            return Some(false);
        }
    }
    Some(true)
}

#[test]
fn columns_are_written(rt: HostRuntime) {
    assert!(rt; all_are_written(rt.alloc()) == Some(true));
}

/// Columns with a row more, each of which had none: a flag, and a null.
fn with_row(alloc: Global, flags: ColumnBuffer, numbers: ColumnBuffer) -> Option<Vec<ColumnBuffer>>
    requires { flags.spelling ≡ by.Bits }
{
    let row = vec![in alloc; Value::Bool(true), Value::Null].ok()?;
    let mut columns = vec![in alloc; flags, numbers].ok()?;
    push_row(alloc, &mut columns, &row).ok()?;
    Some(columns)
}

fn a_row_is_taken(alloc: Global) -> bool {
    let flags = ColumnBuffer::new(alloc, Spelling::Bits);
    let numbers = ColumnBuffer::new(alloc, Spelling::Integers(Version::Two));
    with_row(alloc, flags, numbers).is_some()
}

#[test]
fn a_row_is_pushed(rt: HostRuntime) {
    assert!(rt; a_row_is_taken(rt.alloc()));
}
