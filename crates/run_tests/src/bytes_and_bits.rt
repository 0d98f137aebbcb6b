//! Runs of bytes and of bits.

use orc_rle::{Bits, ByteRuns};
use outside::{RunFault, SliceFeed};
use std::alloc::Global;

/// A stream, and the bytes that are asked for, or how many of them it hasn't.
struct Row {
    stream: &'static [u8],
    values: &'static [u8],
    ends: bool,
}

const ROWS: [Row; 4] = [
    Row {
        stream: b"\x61\x00",
        values: &[0; 100],
        ends: false,
    },
    Row {
        stream: b"\xFE\x44\x45",
        values: b"\x44\x45",
        ends: false,
    },
    Row {
        stream: b"\xFF\x44\x45",
        values: b"\x44",
        ends: false,
    },
    Row {
        stream: b"\xFE\x44",
        values: b"\x44",
        ends: true,
    },
];

/// What a call answers of a stream that ends, or that doesn't.
fn answer(ends: bool) -> Result<(), RunFault> {
    if ends {
        Err(RunFault::StreamEnds)
    } else {
        Ok(())
    }
}

/// Whether the stream gives the row's bytes, or its fault, and that again.
fn gives(alloc: Global, row: &Row) -> Option<bool> {
    let mut feed = SliceFeed::new(vec![in alloc; row.stream].ok()?);
    let mut out = vec![in alloc; 0xAAu8; row.values.len()].ok()?;
    let mut runs = ByteRuns::new(0);
    let filled = runs.fill(&mut feed, &mut out);
    let again = runs.fill(&mut feed, &mut []);
    let wanted = answer(row.ends);
    Some(filled == wanted && again == wanted && (row.ends || out.as_slice() == row.values))
}

#[test]
fn byte_vectors(rt: HostRuntime) {
    for row in &ROWS {
        assert!(rt; gives(rt.alloc(), row) == Some(true));
    }
}

const EIGHT: [bool; 8] = [true, false, false, false, false, false, false, false];

/// Whether one byte gives eight bits, whatever follows, and not nine, and the fault again.
fn gives_bits(alloc: Global) -> Option<bool> {
    let byte = b"\xFF\x80".as_slice();
    let followed = b"\xFF\x80\x99".as_slice();
    let mut feed = SliceFeed::new(vec![in alloc; followed, byte].ok()?);
    let mut out = [true; 8];
    let eight = Bits::new(0).fill(&mut feed, &mut out).is_ok() && out == EIGHT;
    let mut bits = Bits::new(1);
    let nine = bits.fill(&mut feed, &mut [true; 9]);
    Some(eight && nine == answer(true) && bits.fill(&mut feed, &mut []) == answer(true))
}

#[test]
fn bit_vectors(rt: HostRuntime) {
    assert!(rt; gives_bits(rt.alloc()) == Some(true));
}

/// Whether bits go on within a byte, and the stream ends behind them.
fn goes_on(alloc: Global) -> Option<bool> {
    let bytes = b"\xFE\xB0\x80".as_slice();
    let mut feed = SliceFeed::new(vec![in alloc; bytes].ok()?);
    let mut bits = Bits::new(0);
    let mut first = [false; 3];
    let mut second = [true; 7];
    let filled = bits.fill(&mut feed, &mut first).is_ok()
        && bits.fill(&mut feed, &mut second).is_ok();
    let ends = bits.fill(&mut feed, &mut [true; 7]) == answer(true);
    let wanted = [true, false, false, false, false, true, false];
    Some(filled && ends && first == [true, false, true] && second == wanted)
}

#[test]
fn bits_go_on_within_a_byte(rt: HostRuntime) {
    assert!(rt; goes_on(rt.alloc()) == Some(true));
}

/// Whether an empty stream is told from one that ends.
fn tells_empty(alloc: Global) -> Option<bool> {
    let byte = b"\xFF\x80".as_slice();
    let mut feed = SliceFeed::new(vec![in alloc; b"".as_slice(), byte].ok()?);
    let mut out = [true; 8];
    let mut absent = Bits::new(0);
    let empty = absent.fill_unless_empty(&mut feed, &mut out) == Ok(false);
    let ends = absent.fill(&mut feed, &mut out) == answer(true);
    let mut bits = Bits::new(1);
    let filled = bits.fill_unless_empty(&mut feed, &mut out) == Ok(true) && out == EIGHT;
    Some(empty && ends && filled && bits.fill(&mut feed, &mut out) == answer(true))
}

#[test]
fn an_empty_stream_is_told_from_one_that_ends(rt: HostRuntime) {
    assert!(rt; tells_empty(rt.alloc()) == Some(true));
}
