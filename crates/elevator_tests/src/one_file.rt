//! A store of one file that notes its reads, the bytes of a file, and a scan of it past the cache.

use crate::files::Part;
use fragment_outcome::{Outcome, write_result};
use fragment_plan::{Plan, Work, read_plan};
use fragment_scan::scan;
use outside::{MemorySink, RealWorld};
use std::alloc::Global;
pub use test_stores::OneFile;

/// The bytes of a file of these parts.
fn bytes_of(alloc: Global, parts: &[Part]) -> Option<Vec<u8>> {
    let mut digits = String::new(alloc);
    for (count, head, more, tail) in parts {
        for _ in 0..*count {
            digits.push_str(head).ok()?;
            for _ in 0..*more {
                digits.push_str(tail).ok()?;
            }
        }
    }
    hex::decode(alloc, digits.as_str()).ok()
}

/// The bytes of a file of these parts, and the plan of that text.
pub fn file_and_plan(alloc: Global, parts: &[Part], plan: &str) -> Option<(Vec<u8>, Plan)> {
    let bytes = bytes_of(alloc, parts)?;
    match read_plan(alloc, plan.as_bytes()) {
        Ok(plan) => Some((bytes, plan)),
        Err(_) => None,
    }
}

/// A sink for what is printed of a fragment.
fn sink(alloc: Global) -> Option<MemorySink> {
    match MemorySink::new(alloc, Vec::new(alloc), 400) {
        Ok(sink) => Some(sink),
        Err(_) => None,
    }
}

/// Whether the outcome of a plan's fragment could be printed to a sink.
fn is_printed(plan: &Plan, fragment: u32, outcome: &Outcome, sink: &mut MemorySink) -> bool {
    write_result(plan, fragment, outcome, sink).is_ok()
}

/// What is printed of a plan's fragment with that outcome.
pub fn printed(alloc: Global, plan: &Plan, fragment: u32, outcome: &Outcome) -> Option<MemorySink> {
    let mut sink = sink(alloc)?;
    if is_printed(plan, fragment, outcome, &mut sink) {
        Some(sink)
    } else {
        None
    }
}

/// What is printed of a scan of these bytes past the cache, as a plan's fragment asks it.
pub fn printed_past(alloc: Global, bytes: &[u8], plan: &Plan, fragment: u32) -> Option<MemorySink> {
    let mut store = OneFile::new(alloc, bytes, usize::MAX);
    match &plan.fragments().get(fragment as usize)?.work {
        Work::Scan(_) => match scan::<RealWorld, _>(alloc, &mut store, plan, fragment) {
            Ok(outcome) => printed(alloc, plan, fragment, &outcome),
            Err(_) => None,
        },
        Work::Merge(_) => None,
    }
}
