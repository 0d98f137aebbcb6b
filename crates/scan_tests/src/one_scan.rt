//! A scan of one file: what is printed of it, and its reads.

use fragment_outcome::{Outcome, write_result};
use fragment_plan::{Plan, Work, read_plan};
use fragment_scan::scan;
use outside::{MemorySink, RealWorld, Store, World};
use std::alloc::Global;
use test_stores::OneFile;

/// The outcome of the first fragment of a plan over a store, if it is a scan.
pub fn outcome_of<W: World, S: Store<W>>(
    alloc: Global,
    store: &mut S,
    plan: &Plan,
) -> Option<Outcome> {
    match &plan.fragments().first()?.work {
        Work::Scan(_) => scan(alloc, store, plan, 0).ok(),
        Work::Merge(_) => None,
    }
}

/// What is printed of a plan's first fragment with that outcome.
fn printed(alloc: Global, plan: &Plan, outcome: &Outcome) -> Option<MemorySink> {
    let mut sink = MemorySink::new(alloc, Vec::new(alloc), 400).ok()?;
    write_result(plan, 0, outcome, &mut sink).ok()?;
    Some(sink)
}

/// What is printed of the first fragment of a plan, which scans the file of that store.
pub fn scanned(alloc: Global, store: &mut OneFile<'_>, plan: &str) -> Option<MemorySink> {
    let plan = read_plan(alloc, plan.as_bytes()).ok()?;
    match outcome_of::<RealWorld, _>(alloc, store, &plan) {
        Some(outcome) => printed(alloc, &plan, &outcome),
        None => None,
    }
}
