//! How an attempt ends, and whether it was stopped.

ghost use Rattle.std.specs.Prelude.{◌≡◌, ◌<◌, Some, length, slice_get};
ghost use Rattle.std.specs.Bool.{MatchBool};
ghost use Rattle.std.specs.Vec.{vec_capacity};
ghost use Rattle.board_history.specs.Legal.{IsCurrent};
ghost use Rattle.board_history.specs.declared.event.BoardEvent.TheVariants as event;
ghost use Rattle.board_schedule.specs.Schedule.{IsSchedule, Ends, Kills};

use crate::answer::Finish;
use crate::calls::renew;
use board_history::{Attempt, FragmentStatus, History, Place};

/// The number of the current attempt of an attempt's fragment.
fn current_number(history: &History, attempt: Attempt) -> u32
    requires { attempt.fragment < length history.now.plan }
    ensures { slice_get history.now.state.numbers attempt.fragment ≡ Some result }
{
    history.number(attempt.fragment)
}

/// Whether an attempt runs, and is its fragment's current one.
fn is_current(history: &History, attempt: Attempt) -> bool
    requires { attempt.fragment < length history.now.plan }
    ensures { MatchBool result (IsCurrent history.now.state attempt) (IsCurrent history.now.state attempt → ⊥) }
{
    if current_number(history, attempt) != attempt.number {
        return false;
    }
    history.status(attempt.fragment) == FragmentStatus::Running(attempt)
}

/// Ends an attempt with a result, where it is the current one and runs.
pub(crate) fn finish(history: &mut History, places: &mut Vec<Place>, attempt: Attempt) -> Finish
    requires schedule { IsSchedule history.old places.old.items (vec_capacity places.old) }
    requires within { attempt.fragment < length history.old.plan }
    ensures schedule { IsSchedule history.new places.new.items (vec_capacity places.new) }
    ensures ends { Ends history.old attempt (event.Finished attempt) result history.new }
{
    if !is_current(history, attempt) {
        return Finish::Stale {
            current: current_number(history, attempt),
        };
    }
    history.finished(attempt);
    renew(history, places);
    Finish::Kept
}

/// Ends an attempt without a result, where it is the current one and runs.
pub(crate) fn give_up(history: &mut History, places: &mut Vec<Place>, attempt: Attempt) -> Finish
    requires schedule { IsSchedule history.old places.old.items (vec_capacity places.old) }
    requires within { attempt.fragment < length history.old.plan }
    ensures schedule { IsSchedule history.new places.new.items (vec_capacity places.new) }
    ensures ends { Ends history.old attempt (event.GaveUp attempt) result history.new }
{
    if !is_current(history, attempt) {
        return Finish::Stale {
            current: current_number(history, attempt),
        };
    }
    history.gave_up(attempt);
    renew(history, places);
    Finish::Kept
}

/// The number of a fragment's current attempt, where it is greater than the attempt's.
pub(crate) fn killed(history: &History, attempt: Attempt) -> Option<u32>
    requires { attempt.fragment < length history.now.plan }
    ensures { Kills history.now attempt result }
{
    let current = current_number(history, attempt);
    if current <= attempt.number {
        return None;
    }
    Some(current)
}
