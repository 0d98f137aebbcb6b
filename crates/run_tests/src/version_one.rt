//! Runs of integers, version 1.

use orc_integers::RunRoom;
use orc_rle::IntRuns1;
use outside::{RunFault, SliceFeed};
use std::alloc::Global;

/// A stream, whether its integers are signed, and the integers that are asked for or how many of them make which fault.
struct Row {
    bytes: &'static [u8],
    signed: bool,
    values: &'static [i64],
    fault: Option<RunFault>,
}

const ROWS: [Row; 12] = [
    Row {
        bytes: b"\x61\x00\x07",
        signed: false,
        values: &[7; 100],
        fault: None,
    },
    Row {
        bytes: b"\x61\xFF\x64",
        signed: false,
        values: &DOWN,
        fault: None,
    },
    Row {
        bytes: b"\xFB\x02\x03\x06\x07\x0B",
        signed: false,
        values: &[2, 3, 6, 7, 11],
        fault: None,
    },
    Row {
        bytes: b"\xFB\x02\x03\x06\x07\x0B",
        signed: true,
        values: &[1, -2, 3, -4, -6],
        fault: None,
    },
    Row {
        bytes: b"\xF7\x00\x01\x02\x03\x04\x05\x06\x7E\x7F",
        signed: true,
        values: &[0, -1, 1, -2, 2, -3, 3, 63, -64],
        fault: None,
    },
    Row {
        bytes: b"\xF7\x00\x01\x02\x03\x04\x05\x06\x7E\x7F",
        signed: false,
        values: &[0, 1, 2, 3, 4, 5, 6, 126, 127],
        fault: None,
    },
    Row {
        bytes: b"\xF7\x80\x01\x81\x01\xFF\x01\x80\x02\xAC\x02\xFF\x3F\x80\x40\xFF\x7F\x80\x01",
        signed: true,
        values: &[64, -65, -128, 128, 150, -4096, 4096, -8192, 64],
        fault: None,
    },
    Row {
        bytes: b"\xF7\x80\x01\x81\x01\xFF\x01\x80\x02\xAC\x02\xFF\x3F\x80\x40\xFF\x7F\x80\x01",
        signed: false,
        values: &[128, 129, 255, 256, 300, 8191, 8192, 16383, 128],
        fault: None,
    },
    Row {
        bytes: b"\x61\x00\x07",
        signed: false,
        values: &[7; 5],
        fault: None,
    },
    Row {
        bytes: b"\xFF\x01\x99",
        signed: false,
        values: &[1],
        fault: None,
    },
    Row {
        bytes: b"\x61\x00",
        signed: false,
        values: &[0],
        fault: Some(RunFault::StreamEnds),
    },
    Row {
        bytes: b"\xFF\x80\x80\x80\x80\x80\x80\x80\x80\x80\x80",
        signed: false,
        values: &[0],
        fault: Some(RunFault::LongVarint),
    },
];

/// Whether the stream gives the row's integers, or its fault, and that again.
fn gives(alloc: Global, row: &Row) -> Option<bool> {
    let mut feed = SliceFeed::new(vec![in alloc; row.bytes].ok()?);
    let mut out = vec![in alloc; 0i64; row.values.len()].ok()?;
    let mut runs = IntRuns1::new(RunRoom::new(alloc).ok()?, 0, row.signed);
    let fault = runs.fill(&mut feed, &mut out).err();
    let again = runs.fill(&mut feed, &mut []).err();
    Some(
        fault == row.fault
            && again == row.fault
            && (fault.is_some() || out.as_slice() == row.values),
    )
}

#[test]
fn version_one_vectors(rt: HostRuntime) {
    for row in &ROWS {
        assert!(rt; gives(rt.alloc(), row) == Some(true));
    }
}

/// Whether a second call goes on behind the first, within a run and in the next, and the stream ends behind them.
fn goes_on(alloc: Global) -> Option<bool> {
    let bytes = b"\x00\x01\x0A\xFE\x01\x02".as_slice();
    let mut feed = SliceFeed::new(vec![in alloc; bytes].ok()?);
    let mut runs = IntRuns1::new(RunRoom::new(alloc).ok()?, 0, false);
    let mut first = [0; 2];
    let mut second = [0; 3];
    let filled = runs.fill(&mut feed, &mut first).is_ok()
        && runs.fill(&mut feed, &mut second).is_ok();
    let ends = runs.fill(&mut feed, &mut [0]) == Err(RunFault::StreamEnds);
    Some(filled && ends && first == [10, 11] && second == [12, 1, 2])
}

#[test]
fn two_fills_go_on(rt: HostRuntime) {
    assert!(rt; goes_on(rt.alloc()) == Some(true));
}

const DOWN: [i64; 100] = [
    100, 99, 98, 97, 96, 95, 94, 93, 92, 91, 90, 89, 88, 87, 86, 85, 84, 83, 82, 81, 80, 79, 78,
    77, 76, 75, 74, 73, 72, 71, 70, 69, 68, 67, 66, 65, 64, 63, 62, 61, 60, 59, 58, 57, 56, 55, 54,
    53, 52, 51, 50, 49, 48, 47, 46, 45, 44, 43, 42, 41, 40, 39, 38, 37, 36, 35, 34, 33, 32, 31, 30,
    29, 28, 27, 26, 25, 24, 23, 22, 21, 20, 19, 18, 17, 16, 15, 14, 13, 12, 11, 10, 9, 8, 7, 6, 5,
    4, 3, 2, 1,
];
