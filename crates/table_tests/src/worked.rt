//! A worked file, byte for byte.
use crate::writers::{Column, made, push, writer_of};
use orc_columns::Value;
use orc_writer::{Spelling, Writer};
use outside::MemorySink;
use std::alloc::Global;
use test_stores::WORKED_FILE;

/// Its column.
const COLUMNS: [Column; 1] = [(b"x", 4, Spelling::Direct)];

/// Adds 100 rows of -4, whose run has the bytes `61 00 07`.
fn push_rows(writer: &mut Writer) -> Option<()> {
    for _ in 0..100 {
        push(writer, &[Value::Int(-4)])?;
    }
    Some(())
}

/// The file of these rows.
fn file_of(alloc: Global) -> Option<MemorySink> {
    let mut writer = writer_of(alloc, &COLUMNS, 100)?;
    push_rows(&mut writer)?;
    made(alloc, writer)
}

/// Whether it is the worked file.
fn is_written(alloc: Global) -> Option<bool> {
    let file = file_of(alloc)?;
    Some(file.written()? == WORKED_FILE.as_slice())
}

#[test]
fn the_worked_file_is_written(rt: HostRuntime) {
    assert!(rt; is_written(rt.alloc()) == Some(true));
}
