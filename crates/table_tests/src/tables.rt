//! Tables of each kind, written and read back.
use crate::one_file::prints;
use crate::writers::{Column, made, push, writer_of};
use orc_columns::Value;
use orc_writer::{Spelling, Writer};
use outside::{Bytes, MemorySink};
use std::alloc::Global;

/// The spellings of version 1, and of version 2.
const OLD: [Column; 4] = [
    (b"b", 0, Spelling::Direct),
    (b"n", 4, Spelling::Direct),
    (b"t", 7, Spelling::Direct),
    (b"i", 3, Spelling::Direct),
];

const NEW: [Column; 4] = [
    (b"b", 0, Spelling::Direct),
    (b"n", 2, Spelling::DirectV2),
    (b"t", 7, Spelling::DictionaryV2),
    (b"i", 4, Spelling::DirectV2),
];

/// The rows: a truth value, a number, one of four texts and a number, where 9 stands for null.
const ROWS: [[i64; 4]; 5] = [
    [1, 5, 2, 100],
    [0, 9, 2, 102],
    [9, -3, 0, 104],
    [1, 5, 9, 9],
    [0, 7, 1, -70_000],
];

/// What is printed of them.
const PRINTED: &[u8] = b"r rows 5
true\t5\t\"bc\"\t100
false\tnull\t\"bc\"\t102
null\t-3\t\"\"\t104
true\t5\tnull\tnull
false\t7\t\"a\"\t-70000
";

/// The rows of a stripe: one, two, all, and more.
const STRIPES: [u32; 4] = [1, 2, 5, 6];

fn bool_of(number: i64) -> Value {
    match number {
        9 => Value::Null,
        _ => Value::Bool(number == 1),
    }
}

fn int_of(number: i64) -> Value {
    match number {
        9 => Value::Null,
        _ => Value::Int(number),
    }
}

fn text_of(alloc: Global, number: i64) -> Option<Value> {
    let text = match number {
        9 => return Some(Value::Null),
        0 => b"".as_slice(),
        1 => b"a".as_slice(),
        _ => b"bc".as_slice(),
    };
    Some(Value::Text(Bytes::new(Vec::from_slice(alloc, text).ok()?)))
}

/// Adds a row of these numbers.
fn push_numbers(alloc: Global, writer: &mut Writer, row: &[i64; 4]) -> Option<()> {
    let text = text_of(alloc, row[2])?;
    push(
        writer,
        &[bool_of(row[0]), int_of(row[1]), text, int_of(row[3])],
    )
}

/// Adds all rows.
fn push_rows(alloc: Global, writer: &mut Writer) -> Option<()> {
    for row in &ROWS {
        push_numbers(alloc, writer, row)?;
    }
    Some(())
}

/// The file of the rows in columns of these spellings, where a stripe has so many.
fn file_of(alloc: Global, columns: &[Column], stripe_rows: u32) -> Option<MemorySink> {
    if stripe_rows == 0 {
        return None;
    }
    let mut writer = writer_of(alloc, columns, stripe_rows)?;
    push_rows(alloc, &mut writer)?;
    made(alloc, writer)
}

/// Whether the rows are read back from it.
fn is_read_back(alloc: Global, columns: &[Column], stripe_rows: u32) -> Option<bool> {
    let file = file_of(alloc, columns, stripe_rows)?;
    let plan = "r rows b,n,t,i from t.orc";
    prints(alloc, file.written()?, plan, PRINTED)
}

/// Whether they are, whatever a stripe's rows.
fn all_are_read_back(alloc: Global, columns: &[Column]) -> bool {
    for stripe_rows in &STRIPES {
        if is_read_back(alloc, columns, *stripe_rows) != Some(true) {
            return false;
        }
    }
    true
}

/// The encodings of the root, `b` and `n` in a stripe's footer, where those of version 2 are written: DIRECT, DIRECT and DIRECT_V2.
const ENCODINGS: &[u8] = b"\x12\x02\x08\x00\x12\x02\x08\x00\x12\x02\x08\x02";

/// Whether the spellings of version 2 are told.
fn version_two_is_told(alloc: Global) -> Option<bool> {
    let file = file_of(alloc, &NEW, 5)?;
    Some(file.written()?.windows(12).any(|it| it == ENCODINGS))
}

#[test]
fn encodings_are_as_asked(rt: HostRuntime) {
    assert!(rt; version_two_is_told(rt.alloc()) == Some(true));
}

#[test]
fn tables_are_read_back(rt: HostRuntime) {
    assert!(rt; all_are_read_back(rt.alloc(), &OLD) && all_are_read_back(rt.alloc(), &NEW));
}
