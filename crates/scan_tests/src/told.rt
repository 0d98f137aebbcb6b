//! A scan over a store that tells what it holds and was asked for.
use crate::one_scan::outcome_of;
use fragment_outcome::{Answer, Failure, Outcome};
use fragment_plan::{Plan, read_plan};
use outside::{FileRange, MemoryStore};
use std::alloc::Global;
use test_stores::{WorkedWorld, worked_files};

/// The reads of the worked file: its end, its footer, its stripe's footer, and the column's DATA stream.
const READS: [FileRange; 4] = [
    FileRange {
        file: 0,
        at: 0,
        len: 68,
    },
    FileRange {
        file: 0,
        at: 22,
        len: 28,
    },
    FileRange {
        file: 0,
        at: 6,
        len: 16,
    },
    FileRange {
        file: 0,
        at: 3,
        len: 3,
    },
];

/// A store of that file, whose call of that number fails (0: none).
fn store_of(alloc: Global, failing: u64) -> Option<MemoryStore<WorkedWorld>> {
    let fails = [failing].to_vec(alloc).ok()?;
    MemoryStore::new(alloc, worked_files(alloc)?, fails, 8).ok()
}

/// Whether the sum over that store is -400 where no call fails, and else a read fault.
fn fits(alloc: Global, store: &mut MemoryStore<WorkedWorld>, plan: &Plan, failing: u64) -> bool {
    match outcome_of(alloc, store, plan) {
        Some(Outcome::Answer(Answer::Sum(Some(-400)))) => failing == 0,
        Some(Outcome::Failure(Failure::ReadFault)) => failing > 0,
        _ => false,
    }
}

/// Whether it is so over a store whose call of that number fails (0: none), and just the first so many reads are told.
fn tells(alloc: Global, plan: &Plan, failing: u64, reads: usize) -> bool {
    match store_of(alloc, failing) {
        Some(mut store) => {
            fits(alloc, &mut store, plan, failing) && store.logged() == READS.get(..reads)
        }
        None => false,
    }
}

/// The store's failing call (0: none), and how many reads are told: `find` is its first call.
const FAILING: [(u64, usize); 6] = [(0, 4), (1, 0), (2, 0), (3, 1), (4, 2), (5, 3)];

fn all_tell(alloc: Global, plan: &Plan) -> bool {
    for (call, reads) in &FAILING {
        if !tells(alloc, plan, *call, *reads) {
            return false;
        }
    }
    true
}

fn sums_tell(alloc: Global) -> bool {
    match read_plan(alloc, b"s sum x from t.orc") {
        Ok(plan) => all_tell(alloc, &plan),
        Err(_) => false,
    }
}

#[test]
fn a_told_file_is_scanned_until_a_call_fails(rt: HostRuntime) {
    assert!(rt; sums_tell(rt.alloc()));
}
