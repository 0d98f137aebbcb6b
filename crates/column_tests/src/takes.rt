//! From which streams a column is taken, in which order, and what is left of them.

use crate::case::{Case, case_of, feed_of, judged, number_of, read_column};
use crate::case_feed::CaseFeed;
use std::alloc::Global;

/// Columns of two rows, read in batches of one. Wanted are a trail, with 9 behind the start and behind each batch (1 PRESENT,
/// 2 DATA, 3 LENGTH, 4 DICTIONARY_DATA), and how many bytes are left of each stream in that order, a digit each.
const READ: &str = "\
3 0 0 2 FFC0 FE0204 FD0101 99 : 91299 0031
0 0 0 2 - FF80 FD0101 99 : 9299 0031
7 0 0 2 - 6162635A FE0102 99 : 932929 0101
7 0 0 2 - 6162635A FE0104 99 : 9329 0301
7 0 0 2 FFC0 6162635A FE010299 99 : 9132929 0111
7 1 2 2 - FE000199 FE010199 61625A5A : 349299 0112
7 3 2 2 FFC0 420210 4001C099 61625A : 3491299 0011
7 1 0 0 - FF00 99 5A : 9 0211
";

/// The same of a column that is judged, over all rows.
const JUDGED: &str = "\
3 0 0 2 FFC0 FE0204 FD0101 99 : 12 0031
0 0 0 2 - FF80 FD0101 99 : 2 0031
7 0 0 2 FFC0 6162635A FE010299 99 : 13 0411
7 1 2 2 - FE000199 FE010199 61625A5A : 32 0114
7 3 2 2 FFC0 420210 4001C099 61625A : 132 0013
";

/// Whether the trail and what is left are what is wanted.
fn is_taken(case: &Case<'_>, feed: &CaseFeed<'_>) -> Option<bool> {
    let (trail, left) = case.wanted.split_once(' ')?;
    Some(number_of(trail)? == feed.trail && number_of(left)? == feed.left())
}

/// Whether a line's column is taken so, read row by row or judged.
fn takes(alloc: Global, line: &str, is_read: bool) -> Option<bool> {
    let case = case_of(alloc, line)?;
    let mut feed = feed_of(alloc, &case, 0)?;
    if is_read {
        read_column(alloc, &case, &mut feed, 1)?;
    } else if !judged(alloc, &case, &mut feed)?.is_empty() {
        return None;
    }
    is_taken(&case, &feed)
}

fn all_take(alloc: Global, lines: &str, is_read: bool) -> bool {
    for line in lines.lines() {
        if takes(alloc, line, is_read) != Some(true) {
            return false;
        }
    }
    true
}

#[test]
fn a_column_is_taken_stream_by_stream(rt: HostRuntime) {
    assert!(rt; all_take(rt.alloc(), READ, true));
    assert!(rt; all_take(rt.alloc(), JUDGED, false));
}
