//! Stores with a generated file, where the store below is asked.
use crate::under::Under;
use generated_store::{Generated, Made};
use outside::{FileRef, Store};
use std::alloc::Global;

/// A store that has the generated file of 25 rows of number 7 over a store of one file of that name.
fn store_over(alloc: Global, below: &str) -> Option<Generated<Under<'_>>> {
    let made = Made::new(alloc, 7, 25).ok()?;
    Some(Generated::new(Under::new(below, b"abc"), Some(made)))
}

/// The name of the file below, a name that is looked up, and the number under which it is found.
const NAMES: [(&str, &str, Option<u32>); 4] = [
    ("t.orc", "t.orc", Some(0)),
    ("gen-7-26.orc", "gen-7-26.orc", Some(0)),
    ("t.orc", "gen-7-26.orc", None),
    ("gen-7-25.orc", "gen-7-25.orc", Some(4095)),
];

/// The number under which a name is found.
fn number_of(alloc: Global, below: &str, name: &str) -> Option<u32> {
    match store_over(alloc, below)?.find(name) {
        Ok(Some(file)) => Some(file.number),
        _ => None,
    }
}

fn all_are_found(alloc: Global) -> bool {
    for (below, name, number) in &NAMES {
        if number_of(alloc, below, name) != *number {
            return false;
        }
    }
    true
}

/// How many bytes in front of the generated file's end three bytes are read, and how often a call has failed then.
const READS: [(u64, u64); 4] = [(100, 0), (3, 0), (2, 1), (0, 1)];

/// How often a call has failed after a read of three bytes from there. None where the read's answer says otherwise.
fn faults_after(alloc: Global, back: u64) -> Option<u64> {
    let made = Made::new(alloc, 7, 25).ok()?;
    let at = (made.bytes().len() as u64).saturating_sub(back);
    let mut store = store_over(alloc, "t.orc")?;
    let file = FileRef {
        number: 4095,
        len: 1_000_003,
    };
    let failed = store.read_at(file, at.min(1_000_000), &mut [0; 3]).is_err();
    if failed == (store.faults() == 0) {
        return None;
    }
    Some(store.faults())
}

fn all_are_asked(alloc: Global) -> bool {
    for (back, faults) in &READS {
        if faults_after(alloc, *back) != Some(*faults) {
            return false;
        }
    }
    true
}

#[test]
fn another_name_is_looked_up_below(rt: HostRuntime) {
    assert!(rt; all_are_found(rt.alloc()));
}

#[test]
fn a_range_past_the_end_is_read_below(rt: HostRuntime) {
    assert!(rt; all_are_asked(rt.alloc()));
}
