//! Calls of the top call over one file in memory, whose store tells nothing.
ghost use Rattle.std.specs.Prelude.{IfSome};
ghost use Rattle.command_line.specs.Options.{AreInRange};

use crate::top_call::{run, sink_of, source_of};
use command_line::{Options, options};
use data_path::alone;
use outside::{MemorySink, MemorySource, RealWorld};
use std::alloc::Global;
use test_stores::OneFile;

/// A call: its words, its plan, which read of the plan and which write fail (0: none), and the file.
#[derive(Drop)]
pub struct Call<'a> {
    pub words: &'a [&'a str],
    pub plan: &'a str,
    pub failing_read: u64,
    pub failing_write: u64,
    pub file: &'a [u8],
}

/// The exit status of the call over a store of its one file.
fn run_call(
    alloc: Global,
    call: &Call<'_>,
    source: &mut MemorySource,
    sink: &mut MemorySink,
) -> u8 {
    let mut store = OneFile::new(alloc, call.file, usize::MAX);
    run::<RealWorld, _, _, _>(alloc, call.words, source, &mut store, sink).code()
}

/// Whether the bytes are the line of the cache, which is shorter than this.
fn is_cache_line(bytes: &[u8]) -> bool {
    bytes.starts_with(b"cache hit ") && bytes.ends_with(b" moved 0\n") && bytes.len() < 80
}

/// Whether just that text was written, and behind it the line of the cache where the exit status is that of a run.
fn wrote(sink: &MemorySink, code: u8, text: &str) -> bool {
    let Some(written) = sink.written() else {
        return false;
    };
    if written.get(..text.len()) != Some(text.as_bytes()) {
        return false;
    }
    match written.get(text.len()..) {
        Some(rest) => (code < 2 && is_cache_line(rest)) || (code >= 2 && rest.is_empty()),
        None => false,
    }
}

/// Whether a call ends with that exit status, and writes just that text, and the cache's line behind the results of a run.
pub fn answers(alloc: Global, call: &Call<'_>, code: u8, text: &str) -> bool {
    let Some(mut source) = source_of(alloc, call.plan, call.failing_read) else {
        return false;
    };
    let Some(mut sink) = sink_of(alloc, call.failing_write) else {
        return false;
    };
    let answered = run_call(alloc, call, &mut source, &mut sink);
    answered == code && wrote(&sink, code, text)
}

fn options_of(alloc: Global, words: &[&str]) -> Option<Options>
    ensures { IfSome result AreInRange }
{
    match options(alloc, words) {
        Ok(options) => Some(options),
        Err(_) => None,
    }
}

/// The exit status of a plan over that file, run by `alone` with the options of those words.
fn run_alone(
    alloc: Global,
    words: &[&str],
    file: &[u8],
    plan: &[u8],
    sink: &mut MemorySink,
) -> Option<u8> {
    let options = options_of(alloc, words)?;
    let mut store = OneFile::new(alloc, file, usize::MAX);
    Some(alone::<RealWorld, _, _>(alloc, &options, plan, &mut store, sink).code())
}

/// Whether a plan over that file ends with that exit status, and writes just that text, and the cache's line behind the results of a run.
pub fn prints(alloc: Global, file: &[u8], plan: &[u8], code: u8, text: &str) -> bool {
    match sink_of(alloc, 0) {
        Some(mut sink) => {
            run_alone(alloc, &[], file, plan, &mut sink) == Some(code) && wrote(&sink, code, text)
        }
        None => false,
    }
}

/// Whether a plan over that file writes just that text with the options of those words, the cache's line included.
pub fn prints_whole(alloc: Global, words: &[&str], file: &[u8], plan: &[u8], text: &str) -> bool {
    match sink_of(alloc, 0) {
        Some(mut sink) => {
            run_alone(alloc, words, file, plan, &mut sink).is_some()
                && sink.written() == Some(text.as_bytes())
        }
        None => false,
    }
}

/// Whether the fragment `s`, which sums the file's column `x`, writes that text, and the exit status fits it.
pub fn sums_to(alloc: Global, file: &[u8], text: &str) -> bool {
    let call = Call {
        // A small cache is made sooner.
        words: &["--min-block", "64", "--arenas", "1"],
        plan: "s sum x from t.orc",
        failing_read: 0,
        failing_write: 0,
        file,
    };
    let code = if text.starts_with("s sum ") { 0 } else { 1 };
    answers(alloc, &call, code, text)
}

/// The file of one LONG column `x` in one stripe of 100 rows, each of them -4.
pub const FIRST: [u8; 68] = [
    79, 82, 67, 97, 0, 7, 10, 6, 8, 1, 16, 1, 24, 3, 18, 2, 8, 0, 18, 2, 8, 0, 26, 10, 8, 3, 16, 0,
    24, 3, 32, 16, 40, 100, 34, 8, 8, 12, 18, 1, 1, 26, 1, 120, 34, 2, 8, 4, 48, 100, 8, 28, 16, 0,
    34, 2, 0, 12, 40, 0, 130, 244, 3, 3, 79, 82, 67, 17,
];
