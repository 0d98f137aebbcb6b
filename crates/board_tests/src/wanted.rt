//! What a call of a board should answer, and which events it should add, by the replay.
use crate::moves::{Call, Said};
use crate::replays::{BLOCKED, Replayed};
use fragment_plan::Plan;
use wait_queue::{Attempt, BoardEvent, FragmentStatus};

/// An answer, and up to two events.
pub type Wanted = (Said, Option<BoardEvent>, Option<BoardEvent>);

const NOTHING: Said = ('-', 0, 0);

/// The fragment of a key.
fn fragment_of(key: u64) -> u32 {
    (key % 65_536) as u32
}

fn offer(state: &Replayed, plan: &Plan, room: u32, fragment: u32) -> Wanted {
    let (_, last, count) = state.waiting(plan);
    if count < room {
        return (('A', 0, 0), Some(BoardEvent::Offered(fragment)), None);
    }
    if state.key(plan, fragment) > last {
        return (('R', 0, 0), Some(BoardEvent::Rejected(fragment)), None);
    }
    let other = fragment_of(last);
    let evicted = Some(BoardEvent::Evicted(other));
    (
        ('E', other, 0),
        evicted,
        Some(BoardEvent::Offered(fragment)),
    )
}

fn start(state: &Replayed, plan: &Plan, executor: u32) -> Wanted {
    let (first, _, count) = state.waiting(plan);
    if count == 0 {
        return (NOTHING, None, None);
    }
    let fragment = fragment_of(first);
    let number = state.number(fragment);
    let attempt = Attempt {
        fragment,
        number,
        executor,
    };
    (
        ('S', fragment, number),
        Some(BoardEvent::Started(attempt)),
        None,
    )
}

fn review(state: &Replayed, plan: &Plan) -> Wanted {
    let (first, _, count) = state.waiting(plan);
    if state.idle.as_slice().contains(&true) || count == 0 || first >= BLOCKED {
        return (NOTHING, None, None);
    }
    let Some(victim) = state.last_blocked(plan) else {
        return (NOTHING, None, None);
    };
    let made_for = fragment_of(first);
    let event = BoardEvent::Preempted { victim, made_for };
    (('P', victim.fragment, made_for), Some(event), None)
}

fn end(state: &Replayed, attempt: Attempt, finishes: bool) -> Wanted {
    let number = state.number(attempt.fragment);
    let runs = state.status(attempt.fragment) == Some(FragmentStatus::Running(attempt));
    if !runs || number != attempt.number {
        return (('T', number, 0), None, None);
    }
    if finishes {
        return (('K', 0, 0), Some(BoardEvent::Finished(attempt)), None);
    }
    (('K', 0, 0), Some(BoardEvent::GaveUp(attempt)), None)
}

fn killed(state: &Replayed, attempt: Attempt) -> Wanted {
    let number = state.number(attempt.fragment);
    if number > attempt.number {
        return (('N', number, 0), None, None);
    }
    (NOTHING, None, None)
}

/// What a call should answer and add.
pub fn wanted(state: &Replayed, plan: &Plan, room: u32, call: Call) -> Wanted {
    let (which, fragment, number, executor) = call;
    let attempt = Attempt {
        fragment,
        number,
        executor,
    };
    match which {
        'o' => offer(state, plan, room, fragment),
        's' => start(state, plan, executor),
        'r' => review(state, plan),
        'k' => killed(state, attempt),
        _ => end(state, attempt, which == 'f'),
    }
}
