//! Runs of integers, version 2.

use orc_integers::RunRoom;
use orc_rle2::IntRuns2;
use outside::{RunFault, SliceFeed};
use std::alloc::Global;

/// A stream, whether its integers are signed, and the integers that are asked for.
struct Row {
    bytes: &'static [u8],
    signed: bool,
    values: &'static [i64],
}

const ROWS: [Row; 13] = [
    Row {
        bytes: b"\x0A\x27\x10",
        signed: false,
        values: &[10000; 5],
    },
    Row {
        bytes: DIRECT,
        signed: false,
        values: &[23713, 43806, 57005, 48879],
    },
    Row {
        bytes: DIRECT,
        signed: true,
        values: &[-11857, 21903, -28503, -24440],
    },
    Row {
        bytes: PATCHED,
        signed: true,
        values: &ABOVE,
    },
    Row {
        bytes: DELTA,
        signed: false,
        values: &[2, 3, 5, 7, 11, 13, 17, 19, 23, 29],
    },
    Row {
        bytes: DELTA,
        signed: true,
        values: &[1, 2, 4, 6, 10, 12, 16, 18, 22, 28],
    },
    Row {
        bytes: b"\x80\x02\x17\x01\x05\xA0\x40\x00\x00\x40",
        signed: false,
        values: &[6, 7, 6],
    },
    Row {
        bytes: b"\x80\x02\x17\x01\x85\xA0\x40\x00\x00\x40",
        signed: true,
        values: &[-4, -3, -4],
    },
    Row {
        bytes: b"\x42\x02\x18",
        signed: false,
        values: &[0, 1, 2],
    },
    Row {
        bytes: b"\x40\x01\xC0",
        signed: false,
        values: &[1, 1],
    },
    Row {
        bytes: b"\xC0\x04\x05\x01",
        signed: false,
        values: &[5, 4, 3, 2, 1],
    },
    Row {
        bytes: b"\xFE\x02\x00\x02\xC0\x00\x00\x00\x00\x00\x00\x00",
        signed: true,
        values: &[0, 1, -4611686018427387903],
    },
    Row {
        bytes: b"\xC0\x00\x05\x01\x99",
        signed: true,
        values: &[-3],
    },
];

/// A stream, and the fault of so many integers of it.
struct Broken {
    bytes: &'static [u8],
    asked: usize,
    fault: RunFault,
}

const BROKEN: [Broken; 5] = [
    Broken {
        bytes: b"\x8E\x13\x3F\x21",
        asked: 1,
        fault: RunFault::PatchTooWide,
    },
    Broken {
        bytes: b"\x8E\x02\x2B\x21\x07\xD0\x1E\x00\x14\xFC\xE8",
        asked: 3,
        fault: RunFault::PatchOutOfRun,
    },
    Broken {
        bytes: b"\x0A\x27",
        asked: 1,
        fault: RunFault::StreamEnds,
    },
    Broken {
        bytes: b"\x5E",
        asked: 1,
        fault: RunFault::StreamEnds,
    },
    Broken {
        bytes: b"\xC0\x04\x80\x80\x80\x80\x80\x80\x80\x80\x80\x80",
        asked: 1,
        fault: RunFault::LongVarint,
    },
];

/// Whether the stream gives these integers.
fn gives(alloc: Global, row: &Row) -> Option<bool> {
    let mut feed = SliceFeed::new(vec![in alloc; row.bytes].ok()?);
    let mut out = vec![in alloc; 0i64; row.values.len()].ok()?;
    let mut runs = IntRuns2::new(RunRoom::new(alloc).ok()?, 0, row.signed);
    let filled = runs.fill(&mut feed, &mut out);
    Some(filled.is_ok() && out.as_slice() == row.values)
}

/// Whether so many integers of a stream have this fault, which is answered again.
fn breaks(alloc: Global, bytes: &[u8], asked: usize, fault: RunFault) -> Option<bool> {
    let mut feed = SliceFeed::new(vec![in alloc; bytes].ok()?);
    let mut out = vec![in alloc; 0i64; asked].ok()?;
    let mut runs = IntRuns2::new(RunRoom::new(alloc).ok()?, 0, false);
    let filled = runs.fill(&mut feed, &mut out);
    Some(filled == Err(fault) && runs.fill(&mut feed, &mut []) == Err(fault))
}

#[test]
fn version_two_vectors(rt: HostRuntime) {
    for row in &ROWS {
        assert!(rt; gives(rt.alloc(), row) == Some(true));
    }
}

#[test]
fn broken_runs(rt: HostRuntime) {
    for row in &BROKEN {
        assert!(rt; breaks(rt.alloc(), row.bytes, row.asked, row.fault) == Some(true));
    }
}

/// Whether a stream that ends within this run ends before its first integer, at each place.
fn each_cut_ends(alloc: Global, run: &[u8]) -> bool {
    let mut all = true;
    for cut in 0..run.len() {
        all = all && breaks(alloc, &run[..cut], 1, RunFault::StreamEnds) == Some(true);
    }
    all
}

#[test]
fn a_cut_run_ends_the_stream(rt: HostRuntime) {
    for run in [DIRECT, PATCHED, DELTA] {
        assert!(rt; each_cut_ends(rt.alloc(), run));
    }
}

/// Whether a second call goes on behind the first, within a run and in the next, and the stream ends behind them.
fn goes_on(alloc: Global) -> Option<bool> {
    let bytes = b"\x00\x07\x42\x02\x18".as_slice();
    let mut feed = SliceFeed::new(vec![in alloc; bytes].ok()?);
    let mut runs = IntRuns2::new(RunRoom::new(alloc).ok()?, 0, false);
    let mut first = [0; 2];
    let mut second = [0; 4];
    let filled = runs.fill(&mut feed, &mut first).is_ok()
        && runs.fill(&mut feed, &mut second).is_ok();
    let ends = runs.fill(&mut feed, &mut [0]) == Err(RunFault::StreamEnds);
    Some(filled && ends && first == [7, 7] && second == [7, 0, 1, 2])
}

#[test]
fn two_fills_go_on(rt: HostRuntime) {
    assert!(rt; goes_on(rt.alloc()) == Some(true));
}

const DIRECT: &[u8] = b"\x5E\x03\x5C\xA1\xAB\x1E\xDE\xAD\xBE\xEF";

const DELTA: &[u8] = b"\xC6\x09\x02\x02\x22\x42\x42\x46";

const PATCHED: &[u8] =
    b"\x8E\x13\x2B\x21\x07\xD0\x1E\x00\x14\x70\x28\x32\x3C\x46\x50\x5A\x64\x6E\x78\x82\x8C\x96\xA0\xAA\xB4\xBE\xFC\xE8";

const ABOVE: [i64; 20] = [
    2030, 2000, 2020, 1000000, 2040, 2050, 2060, 2070, 2080, 2090, 2100, 2110, 2120, 2130, 2140,
    2150, 2160, 2170, 2180, 2190,
];
