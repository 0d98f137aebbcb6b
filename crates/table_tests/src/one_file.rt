//! A scan of one file.

use fragment_outcome::{Outcome, write_result};
use fragment_plan::{Plan, Work, read_plan};
use fragment_scan::scan;
use outside::{MemorySink, RealWorld, Store, World};
use std::alloc::Global;
use test_stores::OneFile;

/// The outcome of the first fragment of a plan over a store, if it is a scan.
fn outcome_of<W: World, S: Store<W>>(alloc: Global, store: &mut S, plan: &Plan) -> Option<Outcome> {
    match &plan.fragments().first()?.work {
        Work::Scan(_) => scan(alloc, store, plan, 0).ok(),
        Work::Merge(_) => None,
    }
}

/// What is printed of a plan's first fragment, which scans the file of these bytes.
fn scanned(alloc: Global, bytes: &[u8], plan: &str) -> Option<MemorySink> {
    let plan = read_plan(alloc, plan.as_bytes()).ok()?;
    let mut store = OneFile::new(alloc, bytes, usize::MAX);
    let outcome = outcome_of::<RealWorld, _>(alloc, &mut store, &plan)?;
    let mut sink = MemorySink::new(alloc, Vec::new(alloc), 400).ok()?;
    write_result(&plan, 0, &outcome, &mut sink).ok()?;
    Some(sink)
}

/// Whether that is printed of it.
pub fn prints(alloc: Global, bytes: &[u8], plan: &str, text: &[u8]) -> Option<bool> {
    let printed = scanned(alloc, bytes, plan)?;
    Some(printed.written()? == text)
}
