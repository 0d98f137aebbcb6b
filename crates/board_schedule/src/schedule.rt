//! The board of a plan's fragments, without their results.

ghost use Rattle.std.specs.Prelude.{◌≡◌, ◌<◌, ◌≤◌, ◌↔◌, Some, None, IfOk, OnErr, IsTrue, length, slice_get, replicate};
ghost use Rattle.board_history.specs.Legal.{Legal};
ghost use Rattle.board_history.specs.States.{start_of, replay};
ghost use Rattle.board_history.specs.Totals.{totals_of};
ghost use Rattle.board_history.specs.Histories.{no_history};
ghost use Rattle.board_history.specs.declared.event.BoardEvent.TheVariants as event;
ghost use Rattle.board_history.specs.declared.status.FragmentStatus.TheVariants as status;
ghost use Rattle.board_schedule.specs.Schedule.{Offers, Starts, Reviews, Ends, Kills};

use crate::answer::{Finish, Offer, Preempt};
use crate::{calls, ends};
use board_history::{Attempt, BoardEvent, FragmentStatus, History, Place, totals_of};
use fragment_plan::Plan;
use ledgers::BoardTotals;
use outside::NoMemory;
use std::alloc::Global;
use std::marker::Model;

/// The board of a plan's fragments, without their results: which wait, in their order, and which run, finished or gave up.
///
/// Contracts see it as its history: the plan, the numbers of executors and of fragments that may wait, the events, and what they
/// come to. The order of the waiting is at hand, so no call but `new`, `finish` and `give_up` goes through the fragments.
#[derive(Drop)]
pub struct Schedule {
    history: History,
    places: Vec<Place>,
}

impl Model for Schedule {
    ghost use Rattle.std.specs.Vec.{vec_capacity};
    ghost use Rattle.board_history.specs.Histories.{HistoryOf};
    ghost use Rattle.board_schedule.specs.Schedule.{IsSchedule};

    ghost Value = { HistoryOf };

    ghost view = { λ s. s.history };

    ghost invariant = { λ s. IsSchedule s.history s.places.items (vec_capacity s.places) };
}

impl Schedule {
    /// All fragments are absent, their current attempt is the first, all executors are idle, and nothing happened. `executors`
    /// and `room`, the number of fragments that may wait, are at least 1. Refuses only for want of memory.
    pub fn new(alloc: Global, plan: &Plan, executors: u32, room: u32) -> Result<Schedule, NoMemory>
        requires executors { 1 ≤ executors }
        requires room { 1 ≤ room }
        ensures { IfOk result (λ schedule. schedule ≡ no_history plan.now executors room) }
    {
        let Ok(mut places) = Vec::with_capacity(alloc, plan.fragments().len()) else {
            return Err(NoMemory);
        };
        let history = History::new(alloc, plan, executors, room)?;
        calls::renew(&history, &mut places);
        Ok(Schedule { history, places })
    }

    /// Offers an absent fragment. With fewer than `room` waiting it waits from now on. Else it waits in the place of the last of
    /// them, where it comes before that one, which is absent then; and else it stays absent.
    ///
    /// Refuses only for want of memory, and leaves all as it was.
    pub fn offer(&mut self, fragment: u32) -> Result<Offer, NoMemory>
        requires { slice_get self.old.state.statuses fragment ≡ Some status.Absent }
        ensures ok { IfOk result (λ offer. Offers self.old fragment offer self.new) }
        ensures refused { OnErr result (self.new ≡ self.old) }
    {
        calls::offer(&mut self.history, &mut self.places, fragment)
    }

    /// Starts the first of the waiting by an idle executor, with its current attempt number; None exactly where none waits. From
    /// now on there is room for the event that ends the attempt.
    ///
    /// Refuses only for want of memory, or where the number is the greatest of its type; it leaves all as it was.
    pub fn start(&mut self, executor: u32) -> Result<Option<Attempt>, NoMemory>
        requires { slice_get self.old.state.runners executor ≡ Some None }
        ensures ok { IfOk result (λ started. Starts self.old executor started self.new) }
        ensures refused { OnErr result (self.new ≡ self.old) }
    {
        calls::start(&mut self.history, &mut self.places, executor)
    }

    /// Where no executor is idle, a fragment that can finish waits and one that can't runs: stops the last of these, whose
    /// attempt number rises by 1, for the first of the waiting. It takes no memory.
    pub fn review(&mut self) -> Option<Preempt>
        ensures { Reviews self.old result self.new }
    {
        calls::review(&mut self.history, &self.places)
    }

    /// Ends an attempt with a result, where it is its fragment's current one and runs; else nothing changes, and the number of
    /// the current one is told. It takes no memory.
    pub fn finish(&mut self, attempt: Attempt) -> Finish
        requires { attempt.fragment < length self.old.plan }
        ensures { Ends self.old attempt (event.Finished attempt) result self.new }
    {
        ends::finish(&mut self.history, &mut self.places, attempt)
    }

    /// Ends an attempt without a result, in the same way.
    pub fn give_up(&mut self, attempt: Attempt) -> Finish
        requires { attempt.fragment < length self.old.plan }
        ensures { Ends self.old attempt (event.GaveUp attempt) result self.new }
    {
        ends::give_up(&mut self.history, &mut self.places, attempt)
    }

    /// The number of the fragment's current attempt, exactly where it is greater than the attempt's.
    pub fn killed(&self, attempt: Attempt) -> Option<u32>
        requires { attempt.fragment < length self.now.plan }
        ensures { Kills self.now attempt result }
    {
        ends::killed(&self.history, attempt)
    }

    /// Where a fragment is.
    pub fn status(&self, fragment: u32) -> FragmentStatus
        requires { fragment < length self.now.plan }
        ensures { slice_get self.now.state.statuses fragment ≡ Some result }
    {
        self.history.status(fragment)
    }

    /// Whether there is an executor of that number, and it is idle.
    pub fn idle(&self, executor: u32) -> bool
        ensures { IsTrue result ↔ (slice_get self.now.state.runners executor ≡ Some None) }
    {
        self.history.is_idle(executor)
    }

    /// The plan, lent.
    pub fn plan(&self) -> &Plan
        ensures { result.now ≡ self.now.plan }
    {
        self.history.plan()
    }

    /// The events, lent. They are legal, and the state is what they come to.
    pub fn history(&self) -> &[BoardEvent]
        ensures events { result.now ≡ self.now.events }
        ensures legal { Legal self.now.plan self.now.room (start_of self.now.plan self.now.executors) self.now.events }
        ensures replayed { self.now.state ≡ replay (start_of self.now.plan self.now.executors) self.now.events }
    {
        self.history.events()
    }

    /// How often each thing happened.
    pub fn totals(&self) -> BoardTotals
        ensures { result ≡ totals_of self.now.events }
    {
        totals_of(self.history.events())
    }
}
