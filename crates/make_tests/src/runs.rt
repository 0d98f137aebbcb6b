//! Streams of runs.

use orc_integers::RunRoom;
use orc_rle::{Bits, ByteRuns, IntRuns1};
use orc_rle2::IntRuns2;
use outside::SliceFeed;
use rle_writer::{write_bits, write_bytes, write_integers1};
use rle2_writer::write_integers2;
use std::alloc::Global;

/// Integers, and the streams that are wanted: version 1 and version 2, in the shortest of their forms.
struct Row {
    values: &'static [i64],
    signed: bool,
    one: &'static [u8],
    two: &'static [u8],
}

const ROWS: [Row; 13] = [
    Row {
        values: &[7; 100],
        signed: false,
        one: b"\x61\x00\x07",
        two: b"\xC0\x63\x07\x00",
    },
    Row {
        values: &[10000; 5],
        signed: false,
        one: b"\x02\x00\x90\x4E",
        two: b"\x0A\x27\x10",
    },
    Row {
        values: &[2, 3, 6, 7, 11],
        signed: false,
        one: b"\xFB\x02\x03\x06\x07\x0B",
        two: b"\x46\x04\x23\x67\xB0",
    },
    Row {
        values: &[2, 3, 5, 7, 11, 13, 17, 19, 23, 29],
        signed: false,
        one: b"\xFF\x02\x00\x02\x03\xFA\x0B\x0D\x11\x13\x17\x1D",
        two: b"\xC4\x09\x02\x02\x4A\x28\xA6",
    },
    Row {
        values: &[100, 90, 89, 70, 50, 49, 30, 10],
        signed: true,
        one: b"\xF8\xC8\x01\xB4\x01\xB2\x01\x8C\x01\x64\x62\x3C\x14",
        two: b"\xC8\x07\xC8\x01\x13\x0C\xE8\x19\xD0",
    },
    Row {
        values: &[5, 1, 7, 3, 1000000, 2, 6, 4, 1, 5, 7, 2],
        signed: false,
        one: b"\xF4\x05\x01\x07\x03\xC0\x84\x3D\x02\x06\x04\x01\x05\x07\x02",
        two: b"\x86\x0B\x0F\xE1\x01\x40\x62\xF1\x53\x04\x61\x04\xF4\x23",
    },
    Row {
        values: &[5, 1, 7, 3, 1000000, 2, 6, 4, 1, 1000000, 7, 2],
        signed: false,
        one: b"\xF4\x05\x01\x07\x03\xC0\x84\x3D\x02\x06\x04\x01\xC0\x84\x3D\x07\x02",
        two: b"\x86\x0B\x0F\xE2\x01\x40\x62\xF1\x53\x0F\x61\x04\xF4\x23\x05\xF4\x23",
    },
    Row {
        values: &[10, 20, 30, 40, 50],
        signed: false,
        one: b"\x02\x0A\x0A",
        two: b"\xC0\x04\x0A\x14",
    },
    Row {
        values: &[23713, 43806, 57005, 48879],
        signed: false,
        one: b"\xFC\xA1\xB9\x01\x9E\xD6\x02\xAD\xBD\x03\xEF\xFD\x02",
        two: b"\x5E\x03\x5C\xA1\xAB\x1E\xDE\xAD\xBE\xEF",
    },
    Row {
        values: &[-11857, 21903, -28503, -24440],
        signed: true,
        one: b"\xFC\xA1\xB9\x01\x9E\xD6\x02\xAD\xBD\x03\xEF\xFD\x02",
        two: b"\x5E\x03\x5C\xA1\xAB\x1E\xDE\xAD\xBE\xEF",
    },
    Row {
        values: &[1, 1],
        signed: false,
        one: b"\xFE\x01\x01",
        two: b"\x40\x01\xC0",
    },
    Row {
        values: &[i64::MIN, 0, i64::MAX],
        signed: true,
        one: b"\xFD\xFF\xFF\xFF\xFF\xFF\xFF\xFF\xFF\xFF\x01\x00\xFE\xFF\xFF\xFF\xFF\xFF\xFF\xFF\xFF\x01",
        two: b"\x7E\x02\xFF\xFF\xFF\xFF\xFF\xFF\xFF\xFF\x00\x00\x00\x00\x00\x00\x00\x00\xFF\xFF\xFF\xFF\xFF\xFF\xFF\xFE",
    },
    Row {
        values: &[],
        signed: true,
        one: b"",
        two: b"",
    },
];

/// A feed of the streams of both versions.
fn feed_of(alloc: Global, row: &Row) -> Option<SliceFeed<'static>> {
    Some(SliceFeed::new(vec![in alloc; row.one, row.two].ok()?))
}

/// Whether version 1 writes the bytes that are wanted.
fn one_is_written(alloc: Global, row: &Row) -> Option<bool> {
    let one = write_integers1(alloc, row.signed, row.values).ok()?;
    Some(one.as_slice() == row.one)
}

/// Whether version 2 does.
fn two_is_written(alloc: Global, row: &Row) -> Option<bool> {
    let two = write_integers2(alloc, row.signed, row.values).ok()?;
    Some(two.as_slice() == row.two)
}

/// Whether the decoder of version 1 reads the values from its bytes.
fn one_is_read(alloc: Global, row: &Row) -> Option<bool> {
    let mut feed = feed_of(alloc, row)?;
    let mut values = vec![in alloc; 1i64; row.values.len()].ok()?;
    let mut runs = IntRuns1::new(RunRoom::new(alloc).ok()?, 0, row.signed);
    let read = runs.fill(&mut feed, &mut values);
    Some(read.is_ok() && values.as_slice() == row.values)
}

/// Whether the decoder of version 2 does.
fn two_is_read(alloc: Global, row: &Row) -> Option<bool> {
    let mut feed = feed_of(alloc, row)?;
    let mut values = vec![in alloc; 1i64; row.values.len()].ok()?;
    let mut runs = IntRuns2::new(RunRoom::new(alloc).ok()?, 1, row.signed);
    let read = runs.fill(&mut feed, &mut values);
    Some(read.is_ok() && values.as_slice() == row.values)
}

/// Whether both versions write the bytes that are wanted, and the decoders read the values from them.
fn all_come_back(alloc: Global) -> Option<bool> {
    for row in &ROWS {
        let written = one_is_written(alloc, row)? && two_is_written(alloc, row)?;
        if !written || !one_is_read(alloc, row)? || !two_is_read(alloc, row)? {
            return Some(false);
        }
    }
    Some(true)
}

#[test]
fn integers_come_back(rt: HostRuntime) {
    assert!(rt; all_come_back(rt.alloc()) == Some(true));
}

/// A hundred zeros, two other bytes, and three flags, and the standard's streams of them.
const ZEROS: &[u8] = b"\x61\x00";

const OTHERS: &[u8] = b"\xFE\x44\x45";

const FLAGS: &[u8] = b"\xFF\xA0";

/// Whether these bytes are written as that stream.
fn is_stream(alloc: Global, bytes: &[u8], stream: &[u8]) -> Option<bool> {
    Some(write_bytes(alloc, bytes).ok()?.as_slice() == stream)
}

fn flags_are_written(alloc: Global) -> Option<bool> {
    let flags = write_bits(alloc, &[true, false, true]).ok()?;
    Some(flags.as_slice() == FLAGS)
}

fn feed_of_bytes(alloc: Global) -> Option<SliceFeed<'static>> {
    Some(SliceFeed::new(vec![in alloc; ZEROS, OTHERS, FLAGS].ok()?))
}

fn zeros_are_read(alloc: Global) -> Option<bool> {
    let mut feed = feed_of_bytes(alloc)?;
    let mut bytes = [1; 100];
    let read = ByteRuns::new(0).fill(&mut feed, &mut bytes);
    Some(read.is_ok() && bytes == [0; 100])
}

fn flags_are_read(alloc: Global) -> Option<bool> {
    let mut feed = feed_of_bytes(alloc)?;
    let mut three = [false; 3];
    let read = Bits::new(2).fill(&mut feed, &mut three);
    Some(read.is_ok() && three == [true, false, true])
}

fn bytes_come_back(alloc: Global) -> Option<bool> {
    let written = is_stream(alloc, &[0; 100], ZEROS)? && is_stream(alloc, b"\x44\x45", OTHERS)?;
    Some(written && flags_are_written(alloc)? && zeros_are_read(alloc)? && flags_are_read(alloc)?)
}

#[test]
fn bytes_and_bits_come_back(rt: HostRuntime) {
    assert!(rt; bytes_come_back(rt.alloc()) == Some(true));
}

/// 512 numbers from 7 on, or 512 that go round from 0 to 4.
fn numbers(alloc: Global, rising: bool) -> Option<Vec<i64>> {
    let mut numbers = Vec::new(alloc);
    for i in 0..512i64 {
        numbers.push(if rising { i + 7 } else { i % 5 }).ok()?;
    }
    Some(numbers)
}

/// How many bytes the stream of version 2 has of these.
fn size(alloc: Global, rising: bool) -> Option<usize> {
    let numbers = numbers(alloc, rising)?;
    Some(write_integers2(alloc, rising, &numbers).ok()?.len())
}

#[test]
fn equal_steps_are_one_run(rt: HostRuntime) {
    let alloc = rt.alloc();
    assert!(rt; size(alloc, true) == Some(4) && size(alloc, false) == Some(194));
}
