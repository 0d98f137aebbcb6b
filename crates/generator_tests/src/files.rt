//! Generated files, in sinks and in stores.
use crate::under::Under;
use generated_file::generate;
use generated_store::{Generated, Made};
use orc_writer::MakeFault;
use outside::{Failed, FileRef, MemorySink, Store};
use std::alloc::Global;

/// Whether the file of that number and rows has these bytes where it is written to a sink.
fn writes(alloc: Global, number: u32, rows: u32, bytes: &[u8]) -> Option<bool> {
    let mut sink = MemorySink::new(alloc, Vec::new(alloc), 100_000).ok()?;
    let done = generate(alloc, number, rows, &mut sink).is_ok();
    Some(done && sink.written() == Some(bytes))
}

/// Whether each handle of a made file has its name and its bytes.
fn is_shared(made: &Made) -> Option<bool> {
    let again = made.again().ok()?;
    Some(again.bytes() == made.bytes() && again.name() == made.name())
}

/// Whether a file that is written to a sink has the bytes of a made one, and each handle of that the same.
fn is_written(alloc: Global, number: u32, rows: u32) -> Option<bool> {
    let made = Made::new(alloc, number, rows).ok()?;
    Some(writes(alloc, number, rows, made.bytes())? && is_shared(&made)?)
}

/// Files by their numbers and rows: none, one, a whole stripe, and one row more.
const FILES: [(u32, u32); 4] = [(0, 0), (3, 1), (7, 10_000), (7, 10_001)];

fn all_are_written(alloc: Global) -> bool {
    for (number, rows) in &FILES {
        if is_written(alloc, *number, *rows) != Some(true) {
            return false;
        }
    }
    true
}

/// The types of `note` and `qty` in a footer: STRING and INT.
const TYPES: &[u8] = b"\x22\x02\x08\x07\x22\x02\x08\x03";

/// Whether a file has the length that one stripe of these encodings gives, and tells these types.
fn is_encoded(alloc: Global) -> Option<bool> {
    let made = Made::new(alloc, 7, 10_000).ok()?;
    let bytes = made.bytes();
    Some(bytes.len() == 50_587 && bytes.windows(8).any(|it| it == TYPES))
}

/// Whether a sink whose first write fails is a write fault.
fn is_fault(alloc: Global) -> Option<bool> {
    let mut sink = MemorySink::new(alloc, [1].to_vec(alloc).ok()?, 100).ok()?;
    match generate(alloc, 0, 0, &mut sink) {
        Ok(()) => Some(false),
        Err(MakeFault::Write(Failed)) => Some(true),
        Err(MakeFault::NoMemory) => None,
    }
}

/// The bytes of `t.orc`.
const BYTES: [u8; 3] = [1, 2, 3];

/// A store that has the generated file of 25 rows of number 7 beside `t.orc`.
fn store_of(alloc: Global) -> Option<Generated<Under<'static>>> {
    let made = Made::new(alloc, 7, 25).ok()?;
    Some(Generated::new(Under::new("t.orc", &BYTES), Some(made)))
}

/// The length of the file of that name and number, where there is one.
fn len_of(store: &mut Generated<Under<'_>>, name: &str, number: u32) -> Option<u64> {
    match store.find(name) {
        Ok(Some(file)) if file.number == number => Some(file.len),
        _ => None,
    }
}

/// Whether each name is found where its file is.
fn names_are_found(alloc: Global) -> Option<bool> {
    let made = Made::new(alloc, 7, 25).ok()?;
    let mut store = store_of(alloc)?;
    let mut without = Generated::new(Under::new("t.orc", &BYTES), None);
    let len = made.bytes().len() as u64;
    Some(
        len_of(&mut store, "gen-7-25.orc", 4095) == Some(len)
            && len_of(&mut store, "t.orc", 0) == Some(3)
            && len_of(&mut store, "gen-7-26.orc", 4095).is_none()
            && len_of(&mut without, "gen-7-25.orc", 4095).is_none()
            && len_of(&mut without, "t.orc", 0) == Some(3),
    )
}

/// Whether a read of the first three bytes of the file of that number gives these, or fails where there are none.
fn is_front(store: &mut Generated<Under<'_>>, number: u32, front: Option<&[u8; 3]>) -> bool {
    let mut into = [0; 3];
    let file = FileRef { number, len: 3 };
    match store.read_at(file, 0, &mut into) {
        Ok(()) => front == Some(&into),
        Err(_) => front.is_none(),
    }
}

/// Whether the made file and `t.orc` are read, and a file that nobody has is a fault of the store below.
fn files_are_read(alloc: Global) -> Option<bool> {
    let mut store = store_of(alloc)?;
    let made = is_front(&mut store, 4095, Some(b"ORC"));
    let under = is_front(&mut store, 0, Some(&BYTES));
    let sure = store.faults() == 0;
    let nobody = is_front(&mut store, 9, None);
    Some(made && under && sure && nobody && store.faults() == 1)
}

#[test]
fn a_generated_file_is_encoded_as_its_columns(rt: HostRuntime) {
    assert!(rt; is_encoded(rt.alloc()) == Some(true));
}

#[test]
fn a_generated_file_is_written_or_is_a_write_fault(rt: HostRuntime) {
    assert!(rt; all_are_written(rt.alloc()));
    assert!(rt; is_fault(rt.alloc()) == Some(true));
}

#[test]
fn a_store_has_the_made_file_beside_the_others(rt: HostRuntime) {
    assert!(rt; names_are_found(rt.alloc()) == Some(true));
    assert!(rt; files_are_read(rt.alloc()) == Some(true));
}
