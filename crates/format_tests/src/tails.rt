//! Tails of files, each condition that refuses one, and how the fields of a footer are read.
ghost use Rattle.std.specs.Prelude.{◌≡◌};

use crate::reading::{read_as, store_of, tail_of};
use orc_proto::{WireFault, varint_len, write_varint};
use orc_tail::{Stripe, TailFault, column_named};
use outside::FileRef;
use std::alloc::Global;
use test_stores::WORKED_FILE;

const STRIPE: Stripe = Stripe {
    at: 3,
    index_len: 0,
    body_len: 3,
    footer_len: 16,
    rows: 100,
};

/// Whether the whole file has its one stripe and its one column, and is read in two reads.
fn whole_file_is_read(alloc: Global) -> Option<bool> {
    let mut store = store_of(alloc, &WORKED_FILE);
    let tail = tail_of(alloc, &mut store).ok()?;
    let column = column_named(&tail, "x")?;
    let columns = column.number == 1 && column.kind == 4 && column_named(&tail, "y").is_none();
    let stripes = tail.stripes.as_slice() == [STRIPE].as_slice();
    Some(columns && stripes && store.reads.as_slice() == [(0, 68), (22, 28)].as_slice())
}

#[test]
fn a_whole_file_is_read(rt: HostRuntime) {
    assert!(rt; whole_file_is_read(rt.alloc()) == Some(true));
}

/// Why a file's tail is refused.
fn tail_fault(alloc: Global, bytes: &[u8]) -> Option<TailFault> {
    tail_of(alloc, &mut store_of(alloc, bytes)).err()
}

const TRUNCATED: TailFault = TailFault::Wire(WireFault::Truncated(0));

/// Files, and why the tail of each is refused.
const REFUSED: [(&[u8], TailFault); 14] = [
    (b"", TailFault::TooShort),
    (b"\x01", TailFault::TooShort),
    (b"\x08\x00\x02", TailFault::NotOrc),
    (
        b"\x82\xF4\x03\x03ORC\x82\xF4\x03\x03orc\x0E",
        TailFault::NotOrc,
    ),
    (b"\x10\x01\x82\xF4\x03\x03ORC\x09", TailFault::Compressed(1)),
    (b"\x08\x01\x82\xF4\x03\x03ORC\x09", TailFault::OutOfFile),
    (b"\x1A\x08\x01\x82\xF4\x03\x03ORC\x09", TRUNCATED),
    (
        b"\x22\x03\x12\x01\x80\x08\x05\x82\xF4\x03\x03ORC\x09",
        TRUNCATED,
    ),
    (b"\x82\xF4\x03\x03ORC\x07", TailFault::BadTypes),
    (
        b"\x1A\x02\x08\x7F\x22\x02\x08\x0C\x08\x08\x82\xF4\x03\x03ORC\x09",
        TailFault::OutOfFile,
    ),
    // there is no magic, and a compression
    (b"\x10\x01\x02", TailFault::NotOrc),
    // there are no types, and a stripe lies out of the file
    (
        b"\x1A\x02\x08\x7F\x08\x04\x82\xF4\x03\x03ORC\x09",
        TailFault::BadTypes,
    ),
    // packed numbers that are cut in a type behind the first
    (
        b"\x22\x08\x08\x0C\x12\x01\x01\x1A\x01\x78\x22\x05\x08\x04\x12\x01\x80\x08\x11\x82\xF4\x03\x03ORC\x09",
        TRUNCATED,
    ),
    (
        b"\x22\x08\x08\x0C\x12\x01\x01\x1A\x01\x78\x22\x06\x08\x04\x12\x02\x05\x80\x08\x12\x82\xF4\x03\x03ORC\x09",
        TailFault::Wire(WireFault::Truncated(1)),
    ),
];

/// Why a file of 2^32 bytes is refused.
fn long_fault(alloc: Global) -> Option<TailFault> {
    let long = FileRef {
        number: 0,
        len: 4_294_967_296,
    };
    read_as(alloc, &mut store_of(alloc, b""), long).err()
}

#[test]
fn each_condition_refuses_a_tail(rt: HostRuntime) {
    for (bytes, fault) in &REFUSED {
        assert!(rt; tail_fault(rt.alloc(), bytes) == Some(*fault));
    }
    assert!(rt; long_fault(rt.alloc()) == Some(TailFault::TooLarge));
}

/// The number and the kind of a file's column `x`.
fn column_x(alloc: Global, bytes: &[u8]) -> Option<(u32, u64)> {
    let tail = tail_of(alloc, &mut store_of(alloc, bytes)).ok()?;
    let column = column_named(&tail, "x")?;
    Some((column.number, column.kind))
}

/// Files, and the number and the kind of the column `x` of each.
const COLUMNS: [(&[u8], Option<(u32, u64)>); 8] = [
    // unknown fields of each wire type are skipped
    (
        b"\x48\x01\x49\x31\x32\x33\x34\x35\x36\x37\x38\x4A\x02\x61\x62\x4D\x31\x32\x33\x34\x22\x08\x08\x0C\x12\x01\
          \x01\x1A\x01\x78\x22\x02\x08\x04\x08\x22\x82\xF4\x03\x03\x4F\x52\x43\x09",
        Some((1, 4)),
    ),
    // a known field with another wire type is skipped as unknown
    (
        b"\x18\x01\x20\x07\x22\x08\x08\x0C\x12\x01\x01\x1A\x01\x78\x22\x07\x0A\x01\x5A\x08\x04\x18\x05\x08\x17\x82\
          \xF4\x03\x03\x4F\x52\x43\x09",
        Some((1, 4)),
    ),
    // the last value of a singular field counts
    (
        b"\x22\x0A\x08\x03\x08\x0C\x12\x01\x01\x1A\x01\x78\x22\x04\x08\x07\x08\x04\x08\x12\x82\xF4\x03\x03\x4F\x52\x43\x09",
        Some((1, 4)),
    ),
    // repeated numbers are taken unpacked
    (
        b"\x22\x0C\x08\x0C\x10\x01\x10\x02\x1A\x01\x79\x1A\x01\x78\x22\x02\x08\x03\x22\x02\x08\x04\x08\x16\x82\xF4\x03\x03\x4F\x52\x43\x09",
        Some((2, 4)),
    ),
    // of two columns of one name the first counts
    (
        b"\x22\x0C\x08\x0C\x10\x01\x10\x02\x1A\x01\x78\x1A\x01\x78\x22\x02\x08\x03\x22\x02\x08\x04\x08\x16\x82\xF4\x03\x03\x4F\x52\x43\x09",
        Some((1, 3)),
    ),
    // repeated numbers are taken packed and unpacked together
    (
        b"\x22\x11\x08\x0C\x12\x02\x01\x02\x10\x03\x1A\x01\x79\x1A\x01\x7A\x1A\x01\x78\x22\x02\x08\x03\x22\x02\x08\
          \x02\x22\x02\x08\x04\x08\x1F\x82\xF4\x03\x03\x4F\x52\x43\x09",
        Some((3, 4)),
    ),
    // a kind above 32 bits is not cut
    (
        b"\x22\x08\x08\x0C\x12\x01\x01\x1A\x01\x78\x22\x06\x08\x84\x80\x80\x80\x10\x08\x12\x82\xF4\x03\x03\x4F\x52\x43\x09",
        Some((1, 4_294_967_300)),
    ),
    // a subtype above 32 bits is not cut
    (
        b"\x22\x0B\x08\x0C\x10\x81\x80\x80\x80\x10\x1A\x01\x78\x22\x02\x08\x04\x08\x11\x82\xF4\x03\x03\x4F\x52\x43\x09",
        None,
    ),
];

#[test]
fn fields_are_read_as_the_wire_format_says(rt: HostRuntime) {
    for (bytes, column) in &COLUMNS {
        assert!(rt; column_x(rt.alloc(), bytes) == *column);
    }
}

/// Adds the same bytes that many times.
fn push_times(out: &mut Vec<u8>, bytes: &[u8], times: u32) -> Option<()> {
    for _ in 0..times {
        out.extend_from_slice(bytes).ok()?;
    }
    Some(())
}

/// A file of that many empty stripes, whose footer's length is spelled so. They are added a thousand at a time.
fn file_of_stripes(alloc: Global, count: u32, len: [u8; 3]) -> Option<Vec<u8>> {
    let mut thousand = Vec::new(alloc);
    push_times(&mut thousand, b"\x1A\x00", 1000)?;
    let mut file = Vec::new(alloc);
    push_times(&mut file, thousand.as_slice(), count / 1000)?;
    push_times(&mut file, b"\x1A\x00", count % 1000)?;
    file.extend_from_slice(b"\x22\x02\x08\x0C\x08").ok()?;
    file.extend_from_slice(&len).ok()?;
    file.extend_from_slice(b"\x82\xF4\x03\x03ORC\x0B").ok()?;
    Some(file)
}

/// Why a file of that many stripes is refused.
fn stripes_fault(alloc: Global, count: u32, len: [u8; 3]) -> Option<Option<TailFault>> {
    let file = file_of_stripes(alloc, count, len)?;
    Some(tail_fault(alloc, file.as_slice()))
}

#[test]
fn a_million_stripes_are_read(rt: HostRuntime) {
    let most = stripes_fault(rt.alloc(), 1_000_000, [0x84, 0x89, 0x7A]);
    assert!(rt; most == Some(None));
}

#[test]
fn a_million_stripes_and_one_are_refused(rt: HostRuntime) {
    let too_many = stripes_fault(rt.alloc(), 1_000_001, [0x86, 0x89, 0x7A]);
    assert!(rt; too_many == Some(Some(TailFault::TooLarge)));
}

/// Adds a varint.
fn push_varint(out: &mut Vec<u8>, number: u64) -> Option<()> {
    let mut into = [0; 10];
    if varint_len(number) > into.len() {
        return None;
    }
    let len = write_varint(number, &mut into);
    out.extend_from_slice(&into[..len]).ok()
}

/// Type 0 of a file of that many columns, of which the last is named `x` and the others `y`.
fn root_of(alloc: Global, count: u32) -> Option<Vec<u8>> {
    let mut root = Vec::new(alloc);
    root.extend_from_slice(b"\x08\x0C").ok()?;
    for number in 1..=count {
        root.push(0x10).ok()?;
        push_varint(&mut root, u64::from(number))?;
    }
    for number in 1..=count {
        let name = if number == count { b'x' } else { b'y' };
        root.extend_from_slice(&[0x1A, 1, name]).ok()?;
    }
    Some(root)
}

/// A file of that many columns of longs, without stripes.
fn file_of_columns(alloc: Global, count: u32) -> Option<Vec<u8>> {
    let root = root_of(alloc, count)?;
    let mut file = Vec::new(alloc);
    file.push(0x22).ok()?;
    push_varint(&mut file, root.len() as u64)?;
    file.extend_from_slice(root.as_slice()).ok()?;
    push_times(&mut file, b"\x22\x02\x08\x04", count)?;
    let mut postscript = Vec::new(alloc);
    postscript.push(0x08).ok()?;
    push_varint(&mut postscript, file.len() as u64)?;
    postscript.extend_from_slice(b"\x82\xF4\x03\x03ORC").ok()?;
    let len = u8::try_from(postscript.len()).ok()?;
    file.extend_from_slice(postscript.as_slice()).ok()?;
    file.push(len).ok()?;
    Some(file)
}

/// The number and the kind of the column `x` of a file of that many columns.
fn last_column(alloc: Global, count: u32) -> Option<(u32, u64)> {
    column_x(alloc, file_of_columns(alloc, count)?.as_slice())
}

#[test]
fn a_file_may_have_many_columns(rt: HostRuntime) {
    assert!(rt; last_column(rt.alloc(), 1) == Some((1, 4)));
    assert!(rt; last_column(rt.alloc(), 20_000) == Some((20_000, 4)));
}
