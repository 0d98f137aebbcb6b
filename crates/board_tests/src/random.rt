//! Ten thousand calls of boards, each against the replay of the whole history, found anew.
use crate::moves::{Call, Untold, said};
use crate::replays::{MOST, Replayed, replay};
use crate::wanted::{Wanted, wanted};
use fragment_plan::{Plan, read_plan};
use std::alloc::Global;
use wait_queue::{BoardEvent, FragmentStatus};

/// Sums over one to four columns, merges of merges, and fragments that wait for others.
const PLAN: &str =
    "a sum x from t.orc\nb sum x from t.orc where y = 1\nc sum x from t.orc where y = 1 and z = 2\n\
d merge a,b\ne sum x from t.orc after c\nf merge d,e\ng sum x from t.orc where y = 1 and z = 2 and w = 3 after d\n\
h sum y from t.orc\ni sum y from t.orc where x = 1 after h,a\nj merge h,i after b\nk sum z from t.orc\nl merge f,j,k\n\
m sum x from t.orc where z = 2 after k\nn merge l,m\no sum w from t.orc\np sum w from t.orc where x = 1 after n,o\n\
q merge o,p\nr sum x from t.orc\ns sum x from t.orc after r\nt merge r,s,a\n";

/// The next number of a linear congruential generator, below a bound.
fn draw(seed: &mut u64, bound: u32) -> u32 {
    *seed = seed
        .wrapping_mul(6_364_136_223_846_793_005)
        .wrapping_add(1_442_695_040_888_963_407);
    (*seed >> 33) as u32 % bound.max(1)
}

/// The first fragment at or behind a number, going round, that is absent.
fn absent_from(state: &Replayed, first: u32) -> Option<u32> {
    for more in 0..MOST {
        let fragment = first.wrapping_add(more) % MOST;
        if state.status(fragment) == Some(FragmentStatus::Absent) {
            return Some(fragment);
        }
    }
    None
}

/// An idle executor at or behind a number, going round.
fn idle_from(state: &Replayed, first: u32) -> Option<u32> {
    for more in 0..8 {
        let executor = first.wrapping_add(more) % 8;
        if let Some(true) = state.idle.get(executor as usize) {
            return Some(executor);
        }
    }
    None
}

/// The end of an attempt, or a look at it: mostly of one that runs.
fn of_attempt(state: &Replayed, which: char, seed: &mut u64) -> Call {
    let first = draw(seed, MOST);
    for more in 0..MOST {
        let fragment = first.wrapping_add(more) % MOST;
        if let Some(FragmentStatus::Running(attempt)) = state.status(fragment) {
            let number = attempt.number.saturating_sub(draw(seed, 5) / 4);
            return (which, fragment, number, attempt.executor);
        }
    }
    (which, draw(seed, 20), draw(seed, 3), draw(seed, 4))
}

/// A call that may be made.
fn call(state: &Replayed, seed: &mut u64) -> Call {
    let kind = draw(seed, 16);
    if kind < 6
        && let Some(fragment) = absent_from(state, draw(seed, MOST))
    {
        return ('o', fragment, 0, 0);
    }
    if kind < 10
        && let Some(executor) = idle_from(state, draw(seed, 8))
    {
        return ('s', 0, 0, executor);
    }
    match kind {
        12 | 13 => of_attempt(state, 'f', seed),
        14 => of_attempt(state, 'g', seed),
        15 => ('k', draw(seed, 20), draw(seed, 3), draw(seed, 4)),
        _ => ('r', 0, 0, 0),
    }
}

/// Whether a fragment is where the replay has it, and has a result exactly where it finished.
fn fragment_agrees(board: &Untold, state: &Replayed, fragment: u32) -> bool {
    if fragment as usize >= board.plan().fragments().len() {
        return state.status(fragment).is_none();
    }
    let status = board.status(fragment);
    state.status(fragment) == Some(status)
        && board.result(fragment).is_some() == (status == FragmentStatus::Finished)
}

/// Whether each fragment and each executor is where the replay has it.
fn agrees(board: &Untold, state: &Replayed) -> bool {
    for fragment in 0..MOST {
        if !fragment_agrees(board, state, fragment) {
            return false;
        }
    }
    for executor in 0..8 {
        let idle = state.idle.get(executor as usize).copied();
        if board.idle(executor) != idle.unwrap_or(false) {
            return false;
        }
    }
    true
}

/// How many events are of a kind.
fn count(events: &[BoardEvent], kind: char) -> u64 {
    let mut found = 0u64;
    for event in events {
        let is = match event {
            BoardEvent::Offered(_) => 'o',
            BoardEvent::Started(_) => 's',
            BoardEvent::Preempted { .. } => 'p',
            BoardEvent::Finished(_) => 'f',
            BoardEvent::GaveUp(_) => 'g',
            BoardEvent::Evicted(_) | BoardEvent::Rejected(_) => '-',
        };
        found = found.wrapping_add(u64::from(is == kind));
    }
    found
}

/// Whether the totals are the numbers of the events.
fn adds_up(board: &Untold) -> bool {
    let totals = board.totals();
    let events = board.history();
    totals.offered == count(events, 'o')
        && totals.started == count(events, 's')
        && totals.killed == count(events, 'p')
        && totals.finished == count(events, 'f')
        && totals.gave_up == count(events, 'g')
        && totals.inline_runs == 0
}

/// Whether a history has grown by these events alone.
fn grew(events: &[BoardEvent], before: usize, wanted: &Wanted) -> bool {
    let more = events.len().wrapping_sub(before);
    events.get(before).copied() == wanted.1
        && events.get(before.wrapping_add(1)).copied() == wanted.2
        && more == usize::from(wanted.1.is_some()) + usize::from(wanted.2.is_some())
}

/// Makes a call, and says its answer where it, the events and all that can be asked of the board are as the replay has them.
fn plays(board: &mut Untold, plan: &Plan, sizes: (u32, u32), seed: &mut u64) -> char {
    let state = replay(plan, sizes.0, board.history());
    let call = call(&state, seed);
    let wanted = wanted(&state, plan, sizes.1, call);
    let before = board.history().len();
    if !agrees(board, &state) || !adds_up(board) || said(board, call) != wanted.0 {
        return '!';
    }
    if !grew(board.history(), before, &wanted) {
        return '!';
    }
    wanted.0.0
}

/// Plays a board of 160 calls, and marks each answer that came. Answers whether each was as the replay has it.
fn play(alloc: Global, plan: &Plan, round: u32, came: &mut [u32; 128]) -> bool {
    let mut seed = u64::from(round);
    let sizes = (1 + round % 4, 1 + round / 4 % 6);
    let Ok(mut board) = Untold::new(alloc, plan, sizes.0, sizes.1) else {
        return false;
    };
    for _ in 0..160 {
        let answer = plays(&mut board, plan, sizes, &mut seed);
        if answer == '!' || answer == '?' {
            return false;
        }
        came[answer as usize % 128] = 1;
    }
    true
}

/// Whether of 64 boards with 160 calls each all answers are right, and each kind of answer came.
fn all_are_right(alloc: Global) -> bool {
    let Ok(plan) = read_plan(alloc, PLAN.as_bytes()) else {
        return false;
    };
    let mut came = [0; 128];
    for round in 0..64 {
        if !play(alloc, &plan, round, &mut came) {
            return false;
        }
    }
    "AERSPKTN-"
        .bytes()
        .all(|answer| came[answer as usize % 128] == 1)
}

#[test]
fn ten_thousand_calls_answer_by_the_replay(rt: HostRuntime) {
    assert!(rt; all_are_right(rt.alloc()));
}
