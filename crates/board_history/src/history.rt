//! A history, with what it comes to at hand.

ghost use Rattle.std.specs.Prelude.{◌≡◌, [], ◌∷◌, ◌≢◌, ◌<◌, ◌≤◌, ◌+◌, ◌^◌, ◌↔◌, ℕ, Some, None};
ghost use Rattle.std.specs.Prelude.{IfOk, IfSome, OnOk, OnErr, IsTrue, length, slice_get};
ghost use Rattle.std.specs.Bool.{MatchBool};
ghost use Rattle.std.specs.List.{list_all};
ghost use Rattle.fragment_plan.specs.Bounds.{sources_of};
ghost use Rattle.std.specs.Vec.{vec_capacity};
ghost use Rattle.board_history.specs.Order.{is_finishable, place_of, ended_in};
ghost use Rattle.board_history.specs.States.{start_of, replay};
ghost use Rattle.board_history.specs.Legal.{Legal, Fits, IsCurrent, IsLastBlockedOf, waiting};
ghost use Rattle.board_history.specs.Victims.{later_of, last_of, Within};
ghost use Rattle.board_history.specs.Histories.{no_history, after_event, after_both, IsSound};
ghost use Rattle.board_history.specs.declared.event.BoardEvent.TheVariants as event;
ghost use Rattle.board_history.specs.declared.status.FragmentStatus.TheVariants as status;

use crate::attempt::Attempt;
use crate::event::BoardEvent;
use crate::place::Place;
use crate::status::FragmentStatus;
use fragment_plan::{Plan, Work, width};
use outside::NoMemory;
use std::alloc::Global;
use std::marker::Model;

/// The events on a board of one plan's fragments, with what they come to: where each fragment is, its current attempt, and
/// what each executor runs.
///
/// Only an event that fits can be added, so it is always legal. Each running attempt has room for the event that ends it.
/// Contracts see the plan, the numbers of executors and of fragments that may wait, the events, and the state.
#[derive(Drop)]
pub struct History {
    plan: Plan,
    executors: u32,
    room: u32,
    events: Vec<BoardEvent>,
    statuses: Vec<FragmentStatus>,
    numbers: Vec<u32>,
    runners: Vec<Option<Attempt>>,
    busy: usize,
}

impl Model for History {
    ghost use Rattle.std.specs.Prelude.{◌≡◌, ◌+◌, ◌≤◌, length};
    ghost use Rattle.std.specs.Vec.{vec_capacity};
    ghost use Rattle.board_history.specs.Histories.{HistoryOf, IsHistory, running};

    ghost Value = { HistoryOf };

    ghost view = { λ h. record {
      plan = h.plan;
      executors = h.executors;
      room = h.room;
      events = h.events.items;
      state = record { statuses = h.statuses.items; numbers = h.numbers.items; runners = h.runners.items };
    } };

    ghost invariant = { λ h. IsHistory (record {
      plan = h.plan;
      executors = h.executors;
      room = h.room;
      events = h.events.items;
      state = record { statuses = h.statuses.items; numbers = h.numbers.items; runners = h.runners.items };
    }) × (h.busy ≡ running h.runners.items) × (length h.events.items + h.busy ≤ vec_capacity h.events) };
}

/// Makes room for more events, beside one for each busy executor. Refuses only for want of memory.
fn make_room(events: &mut Vec<BoardEvent>, busy: usize, more: usize) -> Result<(), NoMemory>
    requires { busy + more < 2 ^ 33 }
    ensures events { events.new.items ≡ events.old.items }
    ensures keeps { vec_capacity events.old ≤ vec_capacity events.new }
    ensures room { OnOk result (length events.old.items + busy + more ≤ vec_capacity events.new) }
{
    match events.reserve(busy + more) {
        Ok(()) => Ok(()),
        Err(_) => Err(NoMemory),
    }
}

/// Whether a fragment has ended: an attempt of it finished or gave up.
fn has_ended(statuses: &[FragmentStatus], fragment: u32) -> bool
    ensures { result ≡ ended_in (slice_get statuses.now fragment) }
{
    match statuses.get(fragment as usize) {
        Some(status) => matches!(status, FragmentStatus::Finished | FragmentStatus::GaveUp),
        None => false,
    }
}

/// Whether each of these fragments has ended.
fn all_ended(statuses: &[FragmentStatus], named: &[u32]) -> bool
    ensures { result ≡ list_all (λ g. ended_in (slice_get statuses.now g)) named.now }
{
    let mut rest = named;
    while let [first, others @ ..] = rest {
        if !has_ended(statuses, *first) {
            return false;
        }
        rest = others;
    }
    true
}

/// Whether each source of a fragment has ended; a scan has none.
fn are_sources_ended(statuses: &[FragmentStatus], work: &Work) -> bool
    ensures { result ≡ list_all (λ g. ended_in (slice_get statuses.now g)) (sources_of work.now) }
{
    match work {
        Work::Scan(_) => true,
        Work::Merge(sources) => all_ended(statuses, sources.as_slice()),
    }
}

impl History {
    /// Nothing happened yet: all fragments are absent, and all executors are idle. Refuses only for want of memory.
    pub fn new(alloc: Global, plan: &Plan, executors: u32, room: u32) -> Result<History, NoMemory>
        ensures { IfOk result (λ history. history ≡ no_history plan.now executors room) }
    {
        let count = plan.fragments().len();
        if count > u32::MAX as usize {
            return Err(NoMemory);
        }
        let Ok(statuses) = Vec::from_elem(alloc, FragmentStatus::Absent, count) else {
            return Err(NoMemory);
        };
        let Ok(numbers) = Vec::from_elem(alloc, 1u32, count) else {
            return Err(NoMemory);
        };
        let Ok(runners) = Vec::from_elem(alloc, None, executors as usize) else {
            return Err(NoMemory);
        };
        Ok(History {
            plan: plan.again()?,
            executors,
            room,
            events: Vec::new(alloc),
            statuses,
            numbers,
            runners,
            busy: 0,
        })
    }

    /// The plan, lent.
    pub fn plan(&self) -> &Plan
        ensures { result.now ≡ self.now.plan }
    {
        &self.plan
    }

    /// The events, lent. They are legal, and the state is what they come to.
    pub fn events(&self) -> &[BoardEvent]
        ensures events { result.now ≡ self.now.events }
        ensures legal { Legal self.now.plan self.now.room (start_of self.now.plan self.now.executors) self.now.events }
        ensures replayed { self.now.state ≡ replay (start_of self.now.plan self.now.executors) self.now.events }
    {
        self.events.as_slice()
    }

    /// How many fragments may wait; no more do.
    pub fn room(&self) -> u32
        ensures room { result ≡ self.now.room }
        ensures few { waiting self.now.state.statuses ≤ self.now.room }
    {
        let _ = &self.events;
        self.room
    }

    /// The parts of the state agree: they are as long as the plan's fragments and the executors are many, and an attempt that
    /// runs is its fragment's current one, and its executor's. It does nothing.
    pub fn is_sound(&self)
        ensures sound { IsSound (length self.now.plan) self.now.executors self.now.room self.now.state }
        ensures fragments { length self.now.plan < 2 ^ 32 }
    {
        let _ = &self.events;
    }

    /// Where a fragment is.
    pub fn status(&self, fragment: u32) -> FragmentStatus
        requires { fragment < length self.now.plan }
        ensures { slice_get self.now.state.statuses fragment ≡ Some result }
    {
        self.statuses[fragment as usize]
    }

    /// The number of a fragment's current attempt.
    pub fn number(&self, fragment: u32) -> u32
        requires { fragment < length self.now.plan }
        ensures { slice_get self.now.state.numbers fragment ≡ Some result }
    {
        self.numbers[fragment as usize]
    }

    /// Whether there is an executor of that number, and it is idle.
    pub fn is_idle(&self, executor: u32) -> bool
        ensures { IsTrue result ↔ (slice_get self.now.state.runners executor ≡ Some None) }
    {
        let executor = executor as usize;
        executor < self.runners.len() && self.runners[executor].is_none()
    }

    /// Whether an executor is idle.
    pub fn has_idle(&self) -> bool
        ensures { MatchBool result ((k : ℕ) × (slice_get self.now.state.runners k ≡ Some None))
            ((k : ℕ) → slice_get self.now.state.runners k ≢ Some None) }
    {
        self.busy < self.runners.len()
    }

    /// Whether a fragment can finish: each fragment that it names has ended.
    pub fn is_finishable(&self, fragment: u32) -> bool
        requires { fragment < length self.now.plan }
        ensures { result ≡ is_finishable self.now.plan self.now.state.statuses fragment }
    {
        let fragment = &self.plan.fragments()[fragment as usize];
        let statuses = self.statuses.as_slice();
        are_sources_ended(statuses, &fragment.work)
            && all_ended(statuses, fragment.after.as_slice())
    }

    /// Where a fragment stands in the order of the queue.
    pub fn place(&self, fragment: u32) -> Place
        requires { fragment < length self.now.plan }
        ensures { result ≡ place_of self.now.plan self.now.state.statuses fragment }
    {
        Place {
            blocked: !self.is_finishable(fragment),
            width: width(&self.plan, fragment),
            fragment,
        }
    }

    /// Of the running attempts whose fragments can't finish, the last by the order of the queue; None where there is none. It
    /// looks at each executor once.
    pub fn last_blocked(&self) -> Option<Attempt>
        ensures { IsLastBlockedOf self.now.plan self.now.state.statuses result }
    {
        self.last_of(self.runners.as_slice())
    }

    /// Of attempts, the last whose fragment can't finish.
    fn last_of(&self, runners: &[Option<Attempt>]) -> Option<Attempt>
        requires { Within (length self.now.plan) runners.now }
        ensures { result ≡ last_of self.now.plan self.now.state.statuses None runners.now }
    {
        let mut last = None;
        let mut rest = runners;
        while let [first, others @ ..] = rest {
            last = self.later(last, *first);
            rest = others;
        }
        last
    }

    /// The later of an attempt and another one, where there is that one and its fragment can't finish.
    fn later(&self, last: Option<Attempt>, next: Option<Attempt>) -> Option<Attempt>
        requires last { IfSome last (λ a. a.fragment < length self.now.plan) }
        requires next { IfSome next (λ a. a.fragment < length self.now.plan) }
        ensures later { result ≡ later_of self.now.plan self.now.state.statuses last next }
        ensures within { IfSome result (λ a. a.fragment < length self.now.plan) }
    {
        let Some(attempt) = next else {
            return last;
        };
        let place = self.place(attempt.fragment);
        if !place.blocked {
            return last;
        }
        match last {
            Some(other) if !self.place(other.fragment).is_before(&place) => last,
            _ => next,
        }
    }

    /// An absent fragment waits from now on, where fewer wait than may. Refuses only for want of memory, and leaves all as
    /// it was.
    pub fn offered(&mut self, fragment: u32) -> Result<(), NoMemory>
        requires { Fits self.old.plan self.old.room self.old.state (event.Offered fragment) [] }
        ensures ok { OnOk result (self.new ≡ after_event self.old (event.Offered fragment)) }
        ensures refused { OnErr result (self.new ≡ self.old) }
    {
        make_room(&mut self.events, self.busy, 1)?;
        self.events.push_reserved(BoardEvent::Offered(fragment));
        self.statuses[fragment as usize] = FragmentStatus::Waiting;
        Ok(())
    }

    /// An absent fragment waits from now on, and the last of the waiting, which it comes before, makes room for it. Refuses only
    /// for want of memory, and leaves all as it was.
    pub fn evicted(&mut self, evicted: u32, fragment: u32) -> Result<(), NoMemory>
        requires { Fits self.old.plan self.old.room self.old.state (event.Evicted evicted) (event.Offered fragment ∷ []) }
        ensures ok { OnOk result (self.new ≡ after_both self.old (event.Evicted evicted) (event.Offered fragment)) }
        ensures refused { OnErr result (self.new ≡ self.old) }
    {
        make_room(&mut self.events, self.busy, 2)?;
        self.events.push_reserved(BoardEvent::Evicted(evicted));
        self.events.push_reserved(BoardEvent::Offered(fragment));
        self.statuses[evicted as usize] = FragmentStatus::Absent;
        self.statuses[fragment as usize] = FragmentStatus::Waiting;
        Ok(())
    }

    /// An absent fragment that was offered stays absent, for want of room. Refuses only for want of memory, and leaves all as
    /// it was.
    pub fn rejected(&mut self, fragment: u32) -> Result<(), NoMemory>
        requires { Fits self.old.plan self.old.room self.old.state (event.Rejected fragment) [] }
        ensures ok { OnOk result (self.new ≡ after_event self.old (event.Rejected fragment)) }
        ensures refused { OnErr result (self.new ≡ self.old) }
    {
        make_room(&mut self.events, self.busy, 1)?;
        self.events.push_reserved(BoardEvent::Rejected(fragment));
        Ok(())
    }

    /// An idle executor runs the first of the waiting. There is room from now on for the event that ends the attempt. Refuses
    /// only for want of memory, or of numbers: the attempt of the greatest number can't be started. A refused call leaves all as
    /// it was.
    pub fn started(&mut self, attempt: Attempt) -> Result<(), NoMemory>
        requires { Fits self.old.plan self.old.room self.old.state (event.Started attempt) [] }
        ensures ok { OnOk result (self.new ≡ after_event self.old (event.Started attempt)) }
        ensures refused { OnErr result (self.new ≡ self.old) }
    {
        let Some(_) = attempt.number.checked_add(1) else {
            return Err(NoMemory);
        };
        make_room(&mut self.events, self.busy, 2)?;
        self.events.push_reserved(BoardEvent::Started(attempt));
        self.statuses[attempt.fragment as usize] = FragmentStatus::Running(attempt);
        self.runners[attempt.executor as usize] = Some(attempt);
        self.busy += 1;
        Ok(())
    }

    /// A running attempt is stopped for the first of the waiting. It takes no memory.
    pub fn preempted(&mut self, victim: Attempt, made_for: u32)
        requires { Fits self.old.plan self.old.room self.old.state (event.Preempted victim made_for) [] }
        ensures { self.new ≡ after_event self.old (event.Preempted victim made_for) }
    {
        self.events
            .push_reserved(BoardEvent::Preempted { victim, made_for });
        self.statuses[victim.fragment as usize] = FragmentStatus::Absent;
        self.numbers[victim.fragment as usize] += 1;
        self.runners[victim.executor as usize] = None;
        self.busy -= 1;
    }

    /// A running attempt ended with a result. It takes no memory.
    pub fn finished(&mut self, attempt: Attempt)
        requires { IsCurrent self.old.state attempt }
        ensures { self.new ≡ after_event self.old (event.Finished attempt) }
    {
        self.events.push_reserved(BoardEvent::Finished(attempt));
        self.statuses[attempt.fragment as usize] = FragmentStatus::Finished;
        self.runners[attempt.executor as usize] = None;
        self.busy -= 1;
    }

    /// A running attempt ended without a result. It takes no memory.
    pub fn gave_up(&mut self, attempt: Attempt)
        requires { IsCurrent self.old.state attempt }
        ensures { self.new ≡ after_event self.old (event.GaveUp attempt) }
    {
        self.events.push_reserved(BoardEvent::GaveUp(attempt));
        self.statuses[attempt.fragment as usize] = FragmentStatus::GaveUp;
        self.runners[attempt.executor as usize] = None;
        self.busy -= 1;
    }
}
