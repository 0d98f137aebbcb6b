//! Boards that are played move by move.
use crate::moves::{Said, Untold, kept_sum, said};
use fragment_plan::read_plan;
use std::alloc::Global;

/// A call and what it answers.
type Move = (char, u32, u32, u32, Said);

/// One executor and room for one, over scans of two columns, of one and of three.
const WIDTHS: &str = "a rows x,y from t.orc\nb sum x from t.orc\nc rows x,y,z from t.orc\n";

const OF_WIDTHS: [Move; 7] = [
    ('o', 0, 0, 0, ('A', 0, 0)),
    ('o', 1, 0, 0, ('E', 0, 0)),
    ('o', 2, 0, 0, ('R', 0, 0)),
    ('s', 0, 0, 0, ('S', 1, 1)),
    ('r', 0, 0, 0, ('-', 0, 0)),
    ('f', 1, 1, 0, ('K', 0, 0)),
    ('s', 0, 0, 0, ('-', 0, 0)),
];

/// Two executors and room for all: a merge is started before its sources can be, and stopped for one of them.
const MERGED: &str =
    "a sum x from t.orc\nz sum x from t.orc after a\ny sum x from t.orc after a\nm merge z,y\n";

const OF_MERGED: [Move; 17] = [
    ('o', 0, 0, 0, ('A', 0, 0)),
    ('o', 1, 0, 0, ('A', 0, 0)),
    ('o', 2, 0, 0, ('A', 0, 0)),
    ('o', 3, 0, 0, ('A', 0, 0)),
    ('s', 0, 0, 0, ('S', 0, 1)),
    ('r', 0, 0, 0, ('-', 0, 0)),
    ('s', 0, 0, 1, ('S', 3, 1)),
    ('r', 0, 0, 0, ('-', 0, 0)),
    ('f', 0, 1, 0, ('K', 0, 0)),
    ('s', 0, 0, 0, ('S', 1, 1)),
    ('r', 0, 0, 0, ('P', 3, 2)),
    ('k', 3, 1, 1, ('N', 2, 0)),
    ('s', 0, 0, 1, ('S', 2, 1)),
    ('f', 3, 1, 1, ('T', 2, 0)),
    ('g', 1, 1, 0, ('K', 0, 0)),
    ('k', 1, 1, 0, ('-', 0, 0)),
    ('g', 1, 1, 0, ('T', 1, 0)),
];

/// Whether each call answers as it should, and then fragments 0 and 1 have these sums, and so many events happened.
fn plays(
    alloc: Global,
    plan: &str,
    executors: u32,
    room: u32,
    moves: &[Move],
    sums: (i64, i64),
    events: usize,
) -> bool {
    let Ok(plan) = read_plan(alloc, plan.as_bytes()) else {
        return false;
    };
    let Ok(mut board) = Untold::new(alloc, &plan, executors.max(1), room.max(1)) else {
        return false;
    };
    for (call, first, number, executor, wanted) in moves.iter().copied() {
        if said(&mut board, (call, first, number, executor)) != wanted {
            return false;
        }
    }
    (kept_sum(&board, 0), kept_sum(&board, 1)) == sums && board.history().len() == events
}

#[test]
fn boards_answer_by_their_history(rt: HostRuntime) {
    assert!(rt; plays(rt.alloc(), WIDTHS, 1, 1, &OF_WIDTHS, (0, 7), 6));
    assert!(rt; plays(rt.alloc(), MERGED, 2, 16, &OF_MERGED, (7, 0), 11));
}
