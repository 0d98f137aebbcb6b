//! The line of each outcome of a fragment, and the words of faults.
use crate::top_call::sink_of;
use fragment_outcome::{Answer, Failure, Outcome, write_result};
use fragment_plan::{Plan, read_plan};
use orc_columns::{ColumnFault, StreamName};
use orc_proto::WireFault;
use orc_tail::TailFault;
use outside::{Bytes, MemorySink, RunFault};
use std::alloc::Global;

/// Whether the line of a plan's first fragment with that outcome is written to that sink, and nothing else.
fn is_line(plan: &Plan, outcome: &Outcome, sink: &mut MemorySink, text: &str) -> bool {
    write_result(plan, 0, outcome, sink).is_ok() && sink.written() == Some(text.as_bytes())
}

fn plan_has_line(alloc: Global, plan: &Plan, outcome: &Outcome, text: &str) -> bool {
    match sink_of(alloc, 0) {
        Some(mut sink) => is_line(plan, outcome, &mut sink, text),
        None => false,
    }
}

/// Whether the outcome of the fragment `s` has that line.
fn has_line(alloc: Global, outcome: Outcome, text: &str) -> bool {
    match read_plan(alloc, b"s count from t.orc") {
        Ok(plan) => plan_has_line(alloc, &plan, &outcome, text),
        Err(_) => false,
    }
}

/// Whether the failure has that line.
fn fails_so(alloc: Global, failure: Failure, text: &str) -> bool {
    has_line(alloc, Outcome::Failure(failure), text)
}

const SUMS: [(Option<i64>, &str); 5] = [
    (Some(-400), "s sum -400\n"),
    (Some(50), "s sum 50\n"),
    (Some(i64::MAX), "s sum 9223372036854775807\n"),
    (Some(i64::MIN), "s sum -9223372036854775808\n"),
    (None, "s sum null\n"),
];

fn sums_have_lines(alloc: Global) -> bool {
    for (sum, text) in &SUMS {
        if !has_line(alloc, Outcome::Answer(Answer::Sum(*sum)), text) {
            return false;
        }
    }
    true
}

fn failures_have_lines(alloc: Global) -> bool {
    fails_so(alloc, Failure::NoFile, "s failed no file\n")
        && fails_so(alloc, Failure::Compressed(2), "s failed compressed 2\n")
        && fails_so(alloc, Failure::ReadFault, "s failed read fault\n")
        && fails_so(alloc, Failure::Overflow, "s failed overflow\n")
}

fn a_column_is_named(alloc: Global) -> bool {
    match b"y".as_slice().to_vec(alloc) {
        Ok(column) => {
            let failure = Failure::NoColumn(Bytes::new(column));
            fails_so(alloc, failure, "s failed no column y\n")
        }
        Err(_) => false,
    }
}

#[test]
fn lines_are_as_written(rt: HostRuntime) {
    let alloc = rt.alloc();
    assert!(rt; sums_have_lines(alloc) && failures_have_lines(alloc) && a_column_is_named(alloc));
}

/// Faults of a tail and of a stripe's footer, and the line of each of the two.
const TAIL_FAULTS: [(TailFault, &str, &str); 8] = [
    (
        TailFault::TooShort,
        "s failed broken tail short\n",
        "s failed broken stripe 12 footer short\n",
    ),
    (
        TailFault::NotOrc,
        "s failed broken tail not orc\n",
        "s failed broken stripe 12 footer not orc\n",
    ),
    (
        TailFault::Wire(WireFault::Truncated(0)),
        "s failed broken tail wire\n",
        "s failed broken stripe 12 footer wire\n",
    ),
    (
        TailFault::OutOfFile,
        "s failed broken tail out of file\n",
        "s failed broken stripe 12 footer out of file\n",
    ),
    (
        TailFault::BadTypes,
        "s failed broken tail types\n",
        "s failed broken stripe 12 footer types\n",
    ),
    (
        TailFault::TooLarge,
        "s failed broken tail too large\n",
        "s failed broken stripe 12 footer too large\n",
    ),
    (
        TailFault::RootPresent,
        "s failed broken tail root present\n",
        "s failed broken stripe 12 footer root present\n",
    ),
    (
        TailFault::StreamOutOfStripe,
        "s failed broken tail stream out of stripe\n",
        "s failed broken stripe 12 footer stream out of stripe\n",
    ),
];

fn tail_faults_have_words(alloc: Global) -> bool {
    for (fault, tail, footer) in &TAIL_FAULTS {
        let broken = Failure::BrokenFooter {
            stripe: 12,
            fault: *fault,
        };
        if !fails_so(alloc, Failure::BrokenTail(*fault), tail) || !fails_so(alloc, broken, footer) {
            return false;
        }
    }
    true
}

#[test]
fn faults_have_their_words(rt: HostRuntime) {
    assert!(rt; tail_faults_have_words(rt.alloc()));
}

const COLUMN_FAULTS: [(ColumnFault, &str); 8] = [
    (
        ColumnFault::BadEncoding,
        "s failed broken stripe 12 column 3 encoding\n",
    ),
    (
        ColumnFault::Run(StreamName::Present, RunFault::StreamEnds),
        "s failed broken stripe 12 column 3 present stream ends\n",
    ),
    (
        ColumnFault::Run(StreamName::Body, RunFault::LongVarint),
        "s failed broken stripe 12 column 3 data long varint\n",
    ),
    (
        ColumnFault::Run(StreamName::Length, RunFault::PatchOutOfRun),
        "s failed broken stripe 12 column 3 length patch out of run\n",
    ),
    (
        ColumnFault::Run(StreamName::Body, RunFault::PatchTooWide),
        "s failed broken stripe 12 column 3 data patch too wide\n",
    ),
    (
        ColumnFault::NegativeLength,
        "s failed broken stripe 12 column 3 negative length\n",
    ),
    (
        ColumnFault::LengthsPastData,
        "s failed broken stripe 12 column 3 lengths\n",
    ),
    (
        ColumnFault::IndexOutOfDictionary,
        "s failed broken stripe 12 column 3 index\n",
    ),
];

fn column_faults_have_words(alloc: Global) -> bool {
    for (fault, text) in &COLUMN_FAULTS {
        let broken = Failure::BrokenColumn {
            stripe: 12,
            column: 3,
            fault: *fault,
        };
        if !fails_so(alloc, broken, text) {
            return false;
        }
    }
    true
}

#[test]
fn faults_of_a_column_have_their_words(rt: HostRuntime) {
    assert!(rt; column_faults_have_words(rt.alloc()));
}
