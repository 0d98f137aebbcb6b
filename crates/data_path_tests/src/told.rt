//! The worked file in stores that tell what they hold and were asked for.
use crate::top_call::{bytes_of, run, told_status};
use data_path::Status;
use outside::{FileRange, MemoryStore, SureSink, SureSource, SureStore};
use std::alloc::Global;
use test_stores::{WorkedWorld, worked_files};

const PLAN: &str = "s sum x from t.orc";

/// The reads of the worked file: its end, its footer, its stripe's footer, and the column's DATA stream.
const READS: [FileRange; 4] = [
    FileRange {
        file: 0,
        at: 0,
        len: 68,
    },
    FileRange {
        file: 0,
        at: 22,
        len: 28,
    },
    FileRange {
        file: 0,
        at: 6,
        len: 16,
    },
    FileRange {
        file: 0,
        at: 3,
        len: 3,
    },
];

/// What is printed of the worked file.
const SUM: &str = "s sum -400\ncache hit 0 filled 4 bypass 0 evicted 0 moved 0\n";

/// A sure store of that file.
fn sure_store(alloc: Global) -> Option<SureStore<WorkedWorld>> {
    SureStore::new(alloc, worked_files(alloc)?, 8).ok()
}

/// Whether the call over that store and sure forms of the plan's source and the sink ends with the sum, and tells its line.
fn sums_surely(alloc: Global, store: &mut SureStore<WorkedWorld>) -> bool {
    let Some(plan) = bytes_of(alloc, PLAN) else {
        return false;
    };
    let mut source = SureSource::new(plan);
    match SureSink::new(alloc, 128) {
        Ok(mut sink) => {
            run(alloc, &[], &mut source, store, &mut sink) == Status::Done
                && sink.written() == Some(SUM.as_bytes())
        }
        Err(_) => false,
    }
}

/// Whether the sure forms end with the sum, and tell its line and its four reads.
fn sure_forms_sum(alloc: Global) -> bool {
    match sure_store(alloc) {
        Some(mut store) => sums_surely(alloc, &mut store) && store.logged() == READS.get(..),
        None => false,
    }
}

/// A store of that file, whose call of that number fails (0: none).
fn store_of(alloc: Global, failing: u64) -> Option<MemoryStore<WorkedWorld>> {
    let files = worked_files(alloc)?;
    match [failing].to_vec(alloc) {
        Ok(fails) => MemoryStore::new(alloc, files, fails, 8).ok(),
        Err(_) => None,
    }
}

/// Whether a call over a store whose call of that number fails (0: none) writes that text, and tells the first so many reads. Its exit
/// status is 1 where a call failed.
fn memory_forms_tell(alloc: Global, failing: u64, text: &str, reads: usize) -> bool {
    let code = if failing == 0 { 0 } else { 1 };
    match store_of(alloc, failing) {
        Some(mut store) => {
            told_status(alloc, PLAN, &mut store, text) == Some(code)
                && store.logged() == READS.get(..reads)
        }
        None => false,
    }
}

/// The store's failing call, from 1 on (0: none), what is printed, and how many reads were told before it.
const FAILING: [(u64, &str, usize); 6] = [
    (0, SUM, 4),
    (
        1,
        "s failed read fault\ncache hit 0 filled 0 bypass 0 evicted 0 moved 0\n",
        0,
    ),
    (
        2,
        "s failed read fault\ncache hit 0 filled 0 bypass 0 evicted 0 moved 0\n",
        0,
    ),
    (
        3,
        "s failed read fault\ncache hit 0 filled 1 bypass 0 evicted 0 moved 0\n",
        1,
    ),
    (
        4,
        "s failed read fault\ncache hit 0 filled 2 bypass 0 evicted 0 moved 0\n",
        2,
    ),
    (
        5,
        "s failed read fault\ncache hit 0 filled 3 bypass 0 evicted 0 moved 0\n",
        3,
    ),
];

fn each_call_is_told(alloc: Global) -> bool {
    for (call, text, reads) in &FAILING {
        if !memory_forms_tell(alloc, *call, text, *reads) {
            return false;
        }
    }
    true
}

#[test]
fn a_told_file_is_summed_with_four_reads(rt: HostRuntime) {
    assert!(rt; sure_forms_sum(rt.alloc()));
}

#[test]
fn memory_forms_sum_until_a_call_fails(rt: HostRuntime) {
    assert!(rt; each_call_is_told(rt.alloc()));
}
