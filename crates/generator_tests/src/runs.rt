//! The program's run over a generated file.
use crate::under::Under;
use data_path::llapd;
use generated_store::{Generated, Made};
use outside::{Bytes, MemorySink, MemorySource, OpenGate, RealWorld};
use std::alloc::Global;

/// What is printed of 100,000 rows of number 7.
const LARGE: &str =
    "n count 100000\ns sum 5000650000\nq sum -5\nm sum 5000649995\ng group 5\n\"Aarhus\"\t20000\n\"Bergen\"\t20000\n\
    \"Cork\"\t20000\n\"Dijon\"\t20000\n\"Espoo\"\t20000\nf count 500\nr rows 3\n7\t\"n0\"\n8\t\"n1\"\n9\t\"n2\"\n";

/// What is printed of no rows.
const EMPTY: &str =
    "n count 0\ns sum null\nq sum null\nm sum null\ng group 0\nf count 0\nr rows 0\n";

/// What is printed where the file isn't there.
const MISSING: &str =
    "n failed no file\ns failed no file\nq failed no file\nm failed source s\ng failed no file\n\
    f failed no file\nr failed no file\n";

/// A source whose every read fails, of a plan that isn't read.
fn unread(alloc: Global) -> Option<MemorySource> {
    let plan = Bytes::new(b"s sum x from t.orc".as_slice().to_vec(alloc).ok()?);
    Some(MemorySource::new(plan, [1, 2].to_vec(alloc).ok()?))
}

/// Whether the run with these words, over that plan and that store, ends with that status and begins with that text.
pub fn prints(
    alloc: Global,
    words: &[&str],
    source: &mut MemorySource,
    store: &mut Generated<Under<'_>>,
    code: u8,
    text: &str,
) -> Option<bool> {
    let mut sink = MemorySink::new(alloc, Vec::new(alloc), 2000).ok()?;
    let more = Vec::new(alloc);
    let status = llapd::<RealWorld, _, _, _, _>(
        alloc, words, source, store, more, &mut sink, &OpenGate,
    );
    Some(status.code() == code && sink.written()?.starts_with(text.as_bytes()))
}

/// Whether it does over that generated file or none, beside an empty file.
fn made_prints(
    alloc: Global,
    words: &[&str],
    made: Option<Made>,
    code: u8,
    text: &str,
) -> Option<bool> {
    let mut store = Generated::new(Under::new("t.orc", &[]), made);
    let mut source = unread(alloc)?;
    prints(alloc, words, &mut source, &mut store, code, text)
}

fn large_is_printed(alloc: Global) -> Option<bool> {
    let made = Made::new(alloc, 7, 100_000).ok()?;
    let words = ["--gen", "7", "--rows", "100000", "--executors", "0"];
    made_prints(alloc, &words, Some(made), 0, LARGE)
}

fn empty_is_printed(alloc: Global) -> Option<bool> {
    let made = Made::new(alloc, 0, 0).ok()?;
    made_prints(alloc, &["--gen", "0", "--rows", "0"], Some(made), 0, EMPTY)
}

fn missing_is_printed(alloc: Global) -> Option<bool> {
    made_prints(alloc, &["--gen", "7"], None, 1, MISSING)
}

#[test]
fn a_generated_file_of_100000_rows_has_its_results(rt: HostRuntime) {
    assert!(rt; large_is_printed(rt.alloc()) == Some(true));
}

#[test]
fn a_generated_file_without_rows_has_its_results(rt: HostRuntime) {
    assert!(rt; empty_is_printed(rt.alloc()) == Some(true));
}

#[test]
fn a_generated_file_that_is_missing_is_no_file(rt: HostRuntime) {
    assert!(rt; missing_is_printed(rt.alloc()) == Some(true));
}
