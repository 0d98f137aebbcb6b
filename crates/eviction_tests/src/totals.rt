// The two printed lines of a run's counts.
use ledgers::{BoardTotals, CacheTotals, write_totals};
use outside::MemorySink;
use std::alloc::Global;

const CACHE: CacheTotals = CacheTotals {
    hit: 8,
    filled: 4,
    bypass: 18446744073709551615,
    evicted: 2,
    moved: 0,
};

const BOARD: BoardTotals = BoardTotals {
    offered: 5,
    started: 6,
    killed: 1,
    finished: 4,
    gave_up: 10,
    inline_runs: 1_000,
};

const LINES: &str = "cache hit 8 filled 4 bypass 18446744073709551615 evicted 2 moved 0
board offered 5 started 6 killed 1 finished 4 gaveup 10 inline 1000
";

/// A sink whose write of that number fails (0: none).
fn sink_of(alloc: Global, failing: u64) -> Option<MemorySink> {
    match [failing].to_vec(alloc) {
        Ok(fails) => MemorySink::new(alloc, fails, 200).ok(),
        Err(_) => None,
    }
}

/// Whether that is written to such a sink, and the call answers whether a write failed.
fn is_written(alloc: Global, failing: u64, text: &str) -> bool {
    match sink_of(alloc, failing) {
        Some(mut sink) => {
            write_totals(&CACHE, &BOARD, &mut sink).is_err() == (failing > 0)
                && sink.written() == Some(text.as_bytes())
        }
        None => false,
    }
}

#[test]
fn both_lines_are_printed(rt: HostRuntime) {
    assert!(rt; is_written(rt.alloc(), 0, LINES) && is_written(rt.alloc(), 1, ""));
}
