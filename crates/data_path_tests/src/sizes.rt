//! The line of the cache by the options' geometry and half-life: the same plan over the same file, in four caches that evict.
use crate::one_file::prints_whole;
use std::alloc::Global;

/// Texts by a dictionary in two stripes, two hexadecimal digits a byte.
const FILE: &str = "\
    4F52434202104001C061620A060801100118030A060802100118030A06080310011802120208001204080310024202104001\
    C061620A060801100118030A060802100118030A06080310011802120208001204080310021A0A080310001808202228031A\
    0A082D10001808202228032208080C1201011A0178220208073006082810002202000C280082F403034F524311";

const PLAN: &[u8] = b"n count from t.orc\ng group x from t.orc\nm count from t.orc";

/// A half-life, the smallest block and the sets, and what is printed.
const ROWS: [([&str; 6], &str); 4] = [
    (
        ["--half-life", "0", "--min-block", "4096", "--sets", "64"],
        "n count 6\ng group 2\n\"a\"\t4\n\"b\"\t2\nm count 6\ncache hit 4 filled 10 bypass 0 evicted 2 moved 0\n",
    ),
    (
        ["--half-life", "1", "--min-block", "4096", "--sets", "64"],
        "n count 6\ng group 2\n\"a\"\t4\n\"b\"\t2\nm count 6\ncache hit 2 filled 12 bypass 0 evicted 4 moved 0\n",
    ),
    (
        ["--half-life", "1", "--min-block", "64", "--sets", "64"],
        "n count 6\ng group 2\n\"a\"\t4\n\"b\"\t2\nm count 6\ncache hit 3 filled 11 bypass 0 evicted 2 moved 0\n",
    ),
    (
        ["--half-life", "1", "--min-block", "64", "--sets", "1"],
        "n count 6\ng group 2\n\"a\"\t4\n\"b\"\t2\nm count 6\ncache hit 2 filled 12 bypass 0 evicted 4 moved 0\n",
    ),
];

/// Whether each row's cache prints its text over the file of those bytes.
fn all_print(alloc: Global, file: &[u8]) -> bool {
    for (words, text) in &ROWS {
        if !prints_whole(alloc, words, file, PLAN, text) {
            return false;
        }
    }
    true
}

fn sizes_decide(alloc: Global) -> bool {
    match hex::decode(alloc, FILE) {
        Ok(file) => all_print(alloc, file.as_slice()),
        Err(_) => false,
    }
}

#[test]
fn the_options_sizes_decide_what_is_evicted(rt: HostRuntime) {
    assert!(rt; sizes_decide(rt.alloc()));
}
