//! Calls of a board, and what they answer, as plain values.
ghost use Rattle.std.specs.Prelude.{◌≡◌, ◌<◌, IfSome, length};

use fragment_outcome::Answer;
use fragment_plan::Plan;
use kept_results::has_shape;
use outside::RealWorld;
use wait_queue::{Attempt, Board, Finish, FragmentStatus, Kept, Offer};

/// A board over files that aren't told.
pub type Untold = Board<RealWorld>;

/// What a call answered: which answer, and its numbers, 0 where it has none.
pub type Said = (char, u32, u32);

/// A call: `o` offer a fragment, `s` start by an executor, `r` review, `f` finish and `g` give up an attempt, `k` is it killed: of
/// these three the fragment, the number and the executor. The answers are `A` accepted, `E` evicted another, `R` rejected, `S`
/// started, `P` preempted for another, `K` kept, `T` stale, `N` a later number, `-` none, and `?` where the call may not be made.
pub type Call = (char, u32, u32, u32);

fn offered(board: &mut Untold, fragment: u32) -> Said {
    if fragment as usize >= board.plan().fragments().len() {
        return ('?', 0, 0);
    }
    let FragmentStatus::Absent = board.status(fragment) else {
        return ('?', 0, 0);
    };
    match board.offer(fragment) {
        Ok(Offer::Accepted) => ('A', 0, 0),
        Ok(Offer::EvictedOther(other)) => ('E', other, 0),
        Ok(Offer::Rejected) => ('R', 0, 0),
        Err(_) => ('!', 0, 0),
    }
}

fn started(board: &mut Untold, executor: u32) -> Said {
    if !board.idle(executor) {
        return ('?', 0, 0);
    }
    match board.start(executor) {
        Ok(Some(attempt)) => ('S', attempt.fragment, attempt.number),
        Ok(None) => ('-', 0, 0),
        Err(_) => ('!', 0, 0),
    }
}

fn reviewed(board: &mut Untold) -> Said {
    match board.review() {
        Some(preempt) => ('P', preempt.victim.fragment, preempt.made_for),
        None => ('-', 0, 0),
    }
}

/// The sum 7, as the result of a fragment whose answer is a sum.
fn seven(plan: Plan, fragment: u32) -> Option<Kept<RealWorld>>
    requires { fragment < length plan }
    ensures plan { IfSome result (λ kept. kept.plan ≡ plan) }
    ensures fragment { IfSome result (λ kept. kept.fragment ≡ fragment) }
{
    let answer = Answer::Sum(Some(7));
    if !has_shape(&plan, fragment, &answer) {
        return None;
    }
    Some(Kept::new(plan, fragment, answer))
}

fn finished(board: &mut Untold, attempt: Attempt) -> Said {
    if attempt.fragment as usize >= board.plan().fragments().len() {
        return ('?', 0, 0);
    }
    let Ok(plan) = board.plan().again() else {
        return ('!', 0, 0);
    };
    match seven(plan, attempt.fragment) {
        Some(kept) => end_said(board.finish(attempt, kept)),
        None => ('?', 0, 0),
    }
}

fn gave_up(board: &mut Untold, attempt: Attempt) -> Said {
    if attempt.fragment as usize >= board.plan().fragments().len() {
        return ('?', 0, 0);
    }
    end_said(board.give_up(attempt))
}

fn end_said(end: Finish) -> Said {
    match end {
        Finish::Kept => ('K', 0, 0),
        Finish::Stale { current } => ('T', current, 0),
    }
}

fn killed(board: &Untold, attempt: Attempt) -> Said {
    if attempt.fragment as usize >= board.plan().fragments().len() {
        return ('?', 0, 0);
    }
    match board.killed(attempt) {
        Some(number) => ('N', number, 0),
        None => ('-', 0, 0),
    }
}

/// Makes a call.
pub fn said(board: &mut Untold, call: Call) -> Said {
    let (which, fragment, number, executor) = call;
    let attempt = Attempt {
        fragment,
        number,
        executor,
    };
    match which {
        'o' => offered(board, fragment),
        's' => started(board, executor),
        'r' => reviewed(board),
        'k' => killed(board, attempt),
        'f' => finished(board, attempt),
        _ => gave_up(board, attempt),
    }
}

/// The sum that was kept of a fragment, 0 where none was.
pub fn kept_sum(board: &Untold, fragment: u32) -> i64 {
    if fragment as usize >= board.plan().fragments().len() {
        return 0;
    }
    match board.result(fragment) {
        Some(Answer::Sum(Some(sum))) => *sum,
        _ => 0,
    }
}
