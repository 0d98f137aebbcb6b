//! The printed causes of failures, and a write that fails.
use crate::folds::{prints, writes};
use fragment_outcome::{Failure, Outcome};
use fragment_plan::{Plan, read_plan};
use orc_columns::{ColumnFault, StreamName};
use orc_tail::TailFault;
use outside::{Bytes, MemorySink, RunFault};
use std::alloc::Global;

const PLAN: &str = "a count from t\nm merge a\n";

fn fails(alloc: Global, plan: &Plan, failure: Failure, text: &str) -> bool {
    prints(alloc, plan, 1, &Outcome::Failure(failure), text)
}

/// Whether stripes that break are named, with their columns.
fn stripes_are_named(alloc: Global, plan: &Plan) -> bool {
    let column = Failure::BrokenColumn {
        stripe: 3,
        column: 12,
        fault: ColumnFault::Run(StreamName::Body, RunFault::PatchTooWide),
    };
    let footer = Failure::BrokenFooter {
        stripe: 0,
        fault: TailFault::StreamOutOfStripe,
    };
    let text = "m failed broken stripe 3 column 12 data patch too wide\n";
    let other = "m failed broken stripe 0 footer stream out of stripe\n";
    fails(alloc, plan, column, text) && fails(alloc, plan, footer, other)
}

/// Whether tails that break are named, by any cause but a compression.
fn tails_are_named(alloc: Global, plan: &Plan) -> bool {
    let magic = Failure::BrokenTail(TailFault::NotOrc);
    let types = Failure::BrokenTail(TailFault::BadTypes);
    let compressed = Failure::Compressed(1);
    fails(alloc, plan, magic, "m failed broken tail not orc\n")
        && fails(alloc, plan, types, "m failed broken tail types\n")
        && fails(alloc, plan, compressed, "m failed compressed 1\n")
}

/// Whether columns and fragments that fail are named.
fn names_are_printed(alloc: Global, plan: &Plan) -> Option<bool> {
    let name = Bytes::new(b"url".to_vec(alloc).ok()?);
    let kind = Failure::WrongKind(name);
    let source = Failure::SourceFailed(0);
    let is_named = fails(alloc, plan, kind, "m failed wrong kind url\n");
    Some(is_named && fails(alloc, plan, source, "m failed source a\n"))
}

/// The line of a failure that names a column of 5,000 bytes, more than what is held before a write.
fn long_line(alloc: Global) -> Option<Vec<u8>> {
    let mut line = b"m failed no column ".to_vec(alloc).ok()?;
    line.resize(line.len() + 5_000, b'u').ok()?;
    line.push(b'\n').ok()?;
    Some(line)
}

/// Whether what was held before a long name was written is printed once.
fn a_long_name_is_printed(alloc: Global) -> Option<bool> {
    let plan = read_plan(alloc, PLAN.as_bytes()).ok()?;
    let line = long_line(alloc)?;
    let name = Bytes::new(line.get(19..5_019)?.to_vec(alloc).ok()?);
    let mut sink = MemorySink::new(alloc, Vec::new(alloc), 6_000).ok()?;
    let failure = Outcome::Failure(Failure::NoColumn(name));
    Some(writes(&plan, 1, &failure, &mut sink) && sink.written()? == line.as_slice())
}

fn causes_are_printed(alloc: Global) -> Option<bool> {
    let plan = read_plan(alloc, PLAN.as_bytes()).ok()?;
    let named = names_are_printed(alloc, &plan)?;
    Some(named && stripes_are_named(alloc, &plan) && tails_are_named(alloc, &plan))
}

/// A sink whose first write fails.
fn failing(alloc: Global) -> Option<MemorySink> {
    MemorySink::new(alloc, [1u64].to_vec(alloc).ok()?, 200).ok()
}

fn a_failed_write_is_told(alloc: Global) -> Option<bool> {
    let plan = read_plan(alloc, PLAN.as_bytes()).ok()?;
    let mut sink = failing(alloc)?;
    let done = writes(&plan, 0, &Outcome::Failure(Failure::NoFile), &mut sink);
    Some(!done && sink.written()?.is_empty())
}

#[test]
fn each_failure_prints_its_cause(rt: HostRuntime) {
    assert!(rt; causes_are_printed(rt.alloc()) == Some(true));
}

#[test]
fn a_long_name_is_printed_once(rt: HostRuntime) {
    assert!(rt; a_long_name_is_printed(rt.alloc()) == Some(true));
}

#[test]
fn a_write_that_fails_is_answered(rt: HostRuntime) {
    assert!(rt; a_failed_write_is_told(rt.alloc()) == Some(true));
}
