//! A history and its waiting in their order: each call of the board, but for results.

ghost use Rattle.std.specs.Prelude.{◌≡◌, ◌<◌, ◌≤◌, ◌+◌, [], ◌++◌, ◌∷◌, Some, None, true, false, IfOk, OnErr, length, slice_get};
ghost use Rattle.std.specs.Vec.{vec_capacity};
ghost use Rattle.board_history.specs.Order.{place_of, is_before};
ghost use Rattle.board_history.specs.Legal.{waiting};
ghost use Rattle.board_history.specs.declared.status.FragmentStatus.TheVariants as status;
ghost use Rattle.board_schedule.specs.Queue.{IsQueue, IsQueueTo};
ghost use Rattle.board_schedule.specs.Schedule.{IsSchedule, Offers, Starts, Reviews};

use crate::answer::{Offer, Preempt};
use crate::order::put;
use board_history::{Attempt, FragmentStatus, History, Place, laws};
use outside::NoMemory;

/// Offers an absent fragment.
pub(crate) fn offer(
    history: &mut History,
    places: &mut Vec<Place>,
    fragment: u32,
) -> Result<Offer, NoMemory>
    requires schedule { IsSchedule history.old places.old.items (vec_capacity places.old) }
    requires absent { slice_get history.old.state.statuses fragment ≡ Some status.Absent }
    ensures schedule { IsSchedule history.new places.new.items (vec_capacity places.new) }
    ensures ok { IfOk result (λ offer. Offers history.old fragment offer history.new) }
    ensures refused { OnErr result (history.new ≡ history.old) }
{
    if places.len() < history.room() as usize {
        return accept(history, places, fragment);
    }
    replace(history, places, fragment)
}

/// An absent fragment waits, where there is room.
fn accept(history: &mut History, places: &mut Vec<Place>, fragment: u32) -> Result<Offer, NoMemory>
    requires schedule { IsSchedule history.old places.old.items (vec_capacity places.old) }
    requires absent { slice_get history.old.state.statuses fragment ≡ Some status.Absent }
    requires room { waiting history.old.state.statuses < history.old.room }
    ensures schedule { IsSchedule history.new places.new.items (vec_capacity places.new) }
    ensures ok { IfOk result (λ offer. Offers history.old fragment offer history.new) }
    ensures refused { OnErr result (history.new ≡ history.old) }
{
    laws::the_order_is_total();
    history.is_sound();
    let place = history.place(fragment);
    history.offered(fragment)?;
    put(places, place);
    Ok(Offer::Accepted)
}

/// An absent fragment waits in the place of the last of the waiting, where it comes before that one.
fn replace(history: &mut History, places: &mut Vec<Place>, fragment: u32) -> Result<Offer, NoMemory>
    requires schedule { IsSchedule history.old places.old.items (vec_capacity places.old) }
    requires absent { slice_get history.old.state.statuses fragment ≡ Some status.Absent }
    requires full { waiting history.old.state.statuses ≡ history.old.room }
    ensures schedule { IsSchedule history.new places.new.items (vec_capacity places.new) }
    ensures ok { IfOk result (λ offer. Offers history.old fragment offer history.new) }
    ensures refused { OnErr result (history.new ≡ history.old) }
{
    laws::the_order_is_total();
    history.is_sound();
    let place = history.place(fragment);
    let last = places[places.len() - 1];
    if place.is_before(&last) {
        history.evicted(last.fragment, fragment)?;
        places.truncate(places.len() - 1);
        put(places, place);
        return Ok(Offer::EvictedOther(last.fragment));
    }
    history.rejected(fragment)?;
    Ok(Offer::Rejected)
}

/// Starts the first of the waiting by an idle executor.
pub(crate) fn start(
    history: &mut History,
    places: &mut Vec<Place>,
    executor: u32,
) -> Result<Option<Attempt>, NoMemory>
    requires schedule { IsSchedule history.old places.old.items (vec_capacity places.old) }
    requires idle { slice_get history.old.state.runners executor ≡ Some None }
    ensures schedule { IsSchedule history.new places.new.items (vec_capacity places.new) }
    ensures ok { IfOk result (λ started. Starts history.old executor started history.new) }
    ensures refused { OnErr result (history.new ≡ history.old) }
{
    laws::the_order_is_total();
    history.is_sound();
    if places.is_empty() {
        return Ok(None);
    }
    let fragment = places[0].fragment;
    let attempt = Attempt {
        fragment,
        number: history.number(fragment),
        executor,
    };
    history.started(attempt)?;
    places.remove(0);
    Ok(Some(attempt))
}

/// Stops the last of the running that can't finish for the first of the waiting, where that one can and no executor is idle.
pub(crate) fn review(history: &mut History, places: &Vec<Place>) -> Option<Preempt>
    requires { IsSchedule history.old places.now.items (vec_capacity places.now) }
    ensures schedule { IsSchedule history.new places.now.items (vec_capacity places.now) }
    ensures reviews { Reviews history.old result history.new }
{
    laws::the_order_is_total();
    history.is_sound();
    if history.has_idle() || places.is_empty() {
        return None;
    }
    let first = places[0];
    if first.blocked {
        return None;
    }
    let victim = history.last_blocked()?;
    history.preempted(victim, first.fragment);
    Some(Preempt {
        victim,
        made_for: first.fragment,
    })
}

/// The places of the waiting anew, in the order that holds now. It takes no memory.
pub(crate) fn renew(history: &History, places: &mut Vec<Place>)
    requires { length history.now.plan ≤ vec_capacity places.old }
    ensures queue { IsQueue history.now.plan history.now.state.statuses places.new.items }
    ensures capacity { vec_capacity places.new ≡ vec_capacity places.old }
{
    history.is_sound();
    places.clear();
    let count = history.plan().fragments().len() as u32;
    for fragment in 0..count {
        add(history, places, fragment);
    }
}

/// The place of a fragment, where it waits, beside those of the fragments before it.
fn add(history: &History, places: &mut Vec<Place>, fragment: u32)
    requires within { fragment < length history.now.plan }
    requires queue { IsQueueTo history.now.plan history.now.state.statuses fragment places.old.items }
    requires room { length history.now.plan ≤ vec_capacity places.old }
    ensures queue { IsQueueTo history.now.plan history.now.state.statuses (fragment + 1) places.new.items }
    ensures capacity { vec_capacity places.new ≡ vec_capacity places.old }
{
    laws::the_order_is_total();
    if let FragmentStatus::Waiting = history.status(fragment) {
        put(places, history.place(fragment));
    }
}
