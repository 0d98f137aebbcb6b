//! The rows of a column, and the first condition that refuses it.

use crate::case::{case_of, feed_of, judged, read_column};
use std::alloc::Global;

/// Columns that have values: kind, encoding, size of the dictionary, rows, PRESENT, DATA, LENGTH, DICTIONARY_DATA.
const ROWS: &str = "\
3 0 0 5 FFB0 FD0203D804 . . : 1 null -2 300 null
3 0 0 3 FFA0 FE0203 . . : 1 null -2
7 0 0 3 - 616263 FD010002 . : 'a' '' 'bc'
7 1 2 3 - FD000100 FE0101 6162 : 'a' 'b' 'a'
7 3 2 3 - 420210 4001C0 6162 : 'a' 'b' 'a'
7 1 0 2 FF00 . . . : null null
4 0 0 3 . 000102 . . : 1 2 3
0 0 0 8 - FF80 . . : true false false false false false false false
2 2 0 3 - 0002 . . : 1 1 1
7 2 0 3 - 616263 0001 . : 'a' 'b' 'c'
";

/// Columns that are refused: each fault of a run in each stream, and each other condition. For three DATA's fault stands
/// behind one of LENGTH, or PRESENT's before both.
const FAULTS: &str = "\
3 1 0 1 - FF02 . . : BadEncoding
4 0 0 3 - FD02 . . : Run(Body, StreamEnds)
2 0 0 1 - FFFFFFFFFFFFFFFFFFFFFF . . : Run(Body, LongVarint)
3 2 0 3 - 8E022B2107D01E0014FCE8 . . : Run(Body, PatchOutOfRun)
3 2 0 3 - 8E133F21 . . : Run(Body, PatchTooWide)
3 0 0 1 FF FF . . : Run(Present, StreamEnds)
0 0 0 9 - FF80 . . : Run(Body, StreamEnds)
7 0 0 2 - FF FD01 . : Run(Length, StreamEnds)
7 0 0 1 - FF FFFFFFFFFFFFFFFFFFFFFF . : Run(Length, LongVarint)
7 2 0 3 - FF 8E022B2107D01E0014FCE8 . : Run(Length, PatchOutOfRun)
7 2 0 3 - FF 8E133F21 . : Run(Length, PatchTooWide)
7 0 0 3 - 6162 FE0180808080808080808001 . : Run(Length, StreamEnds)
7 0 0 2 - 6162 FE0180808080808080808001 . : NegativeLength
7 0 0 2 - 6162 FE0102 . : LengthsPastData
7 1 2 3 - FD000102 FE0101 6162 : IndexOutOfDictionary
7 3 2 3 - 420218 4001C0 6162 : IndexOutOfDictionary
7 1 2 3 - FD0201 FE0101 6162 : Run(Body, StreamEnds)
7 1 2 1 - FFFFFFFFFFFFFFFFFFFFFF FE0101 6162 : Run(Body, LongVarint)
7 3 2 3 - 8E022B2107D01E0014FCE8 4001C0 6162 : Run(Body, PatchOutOfRun)
7 3 2 3 - 8E133F21 4001C0 6162 : Run(Body, PatchTooWide)
7 1 2 3 - FD00 FE0105 6162 : LengthsPastData
7 1 2 3 - FD000100 FE0102 6162 : LengthsPastData
7 1 3 3 - FD00 FE0101 6162 : Run(Length, StreamEnds)
7 1 1 3 - FD00 FFFFFFFFFFFFFFFFFFFFFF 6162 : Run(Length, LongVarint)
7 3 3 3 - FD00 8E022B2107D01E0014FCE8 6162 : Run(Length, PatchOutOfRun)
7 3 3 3 - FD00 8E133F21 6162 : Run(Length, PatchTooWide)
7 1 2 3 - FD FE0180808080808080808001 6162 : NegativeLength
7 1 0 3 - FD000000 FE0101 6162 : IndexOutOfDictionary
7 0 0 1 FF FF FD . : Run(Present, StreamEnds)
";

/// Columns of all kinds and encodings that claim as many rows as can be claimed, each with PRESENT absent, without a byte and too short; of
/// their other streams each has one run. Behind them dictionaries that claim as many entries as can be claimed.
const CLAIMED: &str = "\
0 0 0 18446744073709551615 - FFFF . . : Run(Body, StreamEnds)
0 0 0 18446744073709551615 . FFFF . . : Run(Body, StreamEnds)
0 0 0 18446744073709551615 FFFF FFFF . . : Run(Present, StreamEnds)
2 0 0 18446744073709551615 - FF02 . . : Run(Body, StreamEnds)
2 0 0 18446744073709551615 . FF02 . . : Run(Body, StreamEnds)
2 0 0 18446744073709551615 FFFF FF02 . . : Run(Present, StreamEnds)
2 2 0 18446744073709551615 - 0002 . . : Run(Body, StreamEnds)
2 2 0 18446744073709551615 . 0002 . . : Run(Body, StreamEnds)
2 2 0 18446744073709551615 FFFF 0002 . . : Run(Present, StreamEnds)
3 0 0 18446744073709551615 - FF02 . . : Run(Body, StreamEnds)
3 0 0 18446744073709551615 . FF02 . . : Run(Body, StreamEnds)
3 0 0 18446744073709551615 FFFF FF02 . . : Run(Present, StreamEnds)
3 2 0 18446744073709551615 - 0002 . . : Run(Body, StreamEnds)
3 2 0 18446744073709551615 . 0002 . . : Run(Body, StreamEnds)
3 2 0 18446744073709551615 FFFF 0002 . . : Run(Present, StreamEnds)
4 0 0 18446744073709551615 - FF02 . . : Run(Body, StreamEnds)
4 0 0 18446744073709551615 . FF02 . . : Run(Body, StreamEnds)
4 0 0 18446744073709551615 FFFF FF02 . . : Run(Present, StreamEnds)
4 2 0 18446744073709551615 - 0002 . . : Run(Body, StreamEnds)
4 2 0 18446744073709551615 . 0002 . . : Run(Body, StreamEnds)
4 2 0 18446744073709551615 FFFF 0002 . . : Run(Present, StreamEnds)
7 0 0 18446744073709551615 - 61 FF01 . : Run(Length, StreamEnds)
7 0 0 18446744073709551615 . 61 FF01 . : Run(Length, StreamEnds)
7 0 0 18446744073709551615 FFFF 61 FF01 . : Run(Present, StreamEnds)
7 2 0 18446744073709551615 - 61 0000 . : Run(Length, StreamEnds)
7 2 0 18446744073709551615 . 61 0000 . : Run(Length, StreamEnds)
7 2 0 18446744073709551615 FFFF 61 0000 . : Run(Present, StreamEnds)
7 1 1 18446744073709551615 - FF00 FF01 61 : Run(Body, StreamEnds)
7 1 1 18446744073709551615 . FF00 FF01 61 : Run(Body, StreamEnds)
7 1 1 18446744073709551615 FFFF FF00 FF01 61 : Run(Present, StreamEnds)
7 3 3 18446744073709551615 - 0000 0000 61 : Run(Body, StreamEnds)
7 3 3 18446744073709551615 . 0000 0000 61 : Run(Body, StreamEnds)
7 3 3 18446744073709551615 FFFF 0000 0000 61 : Run(Present, StreamEnds)
7 1 18446744073709551615 1 - FF00 FF01 61 : Run(Length, StreamEnds)
7 3 18446744073709551615 1 - 0000 0000 61 : Run(Length, StreamEnds)
7 1 18446744073709551615 0 - . . . : Run(Length, StreamEnds)
";

/// As many takes as the bytes of such streams may ask for.
const FEW: u64 = 40;

/// A column by a dictionary, of which a take fails.
const FAILS: &str = "7 1 2 3 - FD000100 FE0101 6162 : Read(Failed)";

/// Whether the batches of a line's column, of so many rows each, give what is wanted where that take fails.
fn gives(alloc: Global, line: &str, batch: u64, fails_at: u64) -> Option<bool> {
    let case = case_of(alloc, line)?;
    let mut feed = feed_of(alloc, &case, fails_at)?;
    let words = read_column(alloc, &case, &mut feed, batch)?;
    Some(words.as_str().trim_end() == case.wanted)
}

/// Whether that is the first fault of a line's column, and finding it takes little.
fn has_fault(alloc: Global, line: &str, fault: &str) -> Option<bool> {
    let case = case_of(alloc, line)?;
    let mut feed = feed_of(alloc, &case, 0)?;
    let found = judged(alloc, &case, &mut feed)?;
    Some(found.as_str() == fault && feed.takes <= FEW)
}

/// Columns that have values give them in batches of one row, of two, and of as many as a batch may have.
fn rows_are_given(alloc: Global) -> Option<bool> {
    for line in ROWS.lines() {
        let small = gives(alloc, line, 1, 0)? && gives(alloc, line, 2, 0)?;
        if !small || !gives(alloc, line, 1024, 0)? || !has_fault(alloc, line, "")? {
            return Some(false);
        }
    }
    Some(true)
}

fn faults_are_found(alloc: Global, lines: &str) -> Option<bool> {
    for line in lines.lines() {
        let (_, fault) = line.split_once(" : ")?;
        if !gives(alloc, line, 1024, 0)? || !has_fault(alloc, line, fault)? {
            return Some(false);
        }
    }
    Some(true)
}

fn takes_fail(alloc: Global) -> Option<bool> {
    for take in 1..=5 {
        if !gives(alloc, FAILS, 1, take)? {
            return Some(false);
        }
    }
    Some(true)
}

#[test]
fn columns_give_their_rows_or_their_first_fault(rt: HostRuntime) {
    assert!(rt; rows_are_given(rt.alloc()) == Some(true));
    assert!(rt; faults_are_found(rt.alloc(), FAULTS) == Some(true));
    assert!(rt; faults_are_found(rt.alloc(), CLAIMED) == Some(true));
    assert!(rt; takes_fail(rt.alloc()) == Some(true));
}
