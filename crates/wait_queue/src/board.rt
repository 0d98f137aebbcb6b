//! The board with its results.

ghost use Rattle.std.specs.Prelude.{◌≡◌, ◌<◌, ◌≤◌, ◌↔◌, Some, None, IfOk, IfSome, OnErr, IsTrue, IsSome, length, slice_get, replicate};
ghost use Rattle.std.specs.Option.{option_copied, option_flatten};
ghost use Rattle.board_history.specs.Totals.{totals_of};
ghost use Rattle.board_history.specs.declared.event.BoardEvent.TheVariants as event;
ghost use Rattle.board_history.specs.declared.status.FragmentStatus.TheVariants as status;
ghost use Rattle.board_schedule.specs.Schedule.{Offers, Starts, Reviews, Ends, Kills};
ghost use Rattle.kept_results.specs.Kept.{IsKept};
ghost use Rattle.wait_queue.specs.Boards.{no_board, Finishes, IsLegal, IsReplayed, status_by_replay};

use board_history::{Attempt, BoardEvent, FragmentStatus};
use board_schedule::{Finish, Offer, Preempt, Schedule};
use fragment_outcome::Answer;
use fragment_plan::Plan;
use kept_results::Kept;
use ledgers::BoardTotals;
use outside::{NoMemory, World};
use std::alloc::Global;
use std::marker::{Model, PhantomData};

/// The board of a plan's fragments: its schedule, and the answers of the fragments that finished.
///
/// Its type keeps that a fragment has an answer exactly where it is finished, and that the answer is its fragment's: of its shape, and
/// what it means where the world tells its files. Contracts see it as the schedule's history and a list of answers, one place for
/// each fragment.
#[derive(Drop)]
pub struct Board<W: World> {
    schedule: Schedule,
    answers: Vec<Option<Answer>>,
    world: PhantomData<W>,
}

impl<W: World> Model for Board<W> {
    ghost use Rattle.wait_queue.specs.Boards.{BoardOf, HasAnswers};

    ghost Value = { BoardOf };

    ghost view = { λ b. record { history = b.schedule; answers = b.answers.items } };

    ghost invariant = { λ b. HasAnswers W.files (record { history = b.schedule; answers = b.answers.items }) };
}

/// So many answers that aren't there yet. Refuses only for want of memory.
#[tactic(auto, using(crate::proofs::Keeping::replicate_more))]
fn no_answers(alloc: Global, count: usize) -> Result<Vec<Option<Answer>>, NoMemory>
    ensures { IfOk result (λ answers. answers.items ≡ replicate count None) }
{
    let mut answers = Vec::new(alloc);
    for done in 0..count {
        if answers.push(None).is_err() {
            return Err(NoMemory);
        }
    }
    Ok(answers)
}

impl<W: World> Board<W> {
    /// A board on which nothing happened: all fragments are absent, their current attempt is the first, and all executors are
    /// idle. It has room for one result of each fragment. `executors` and `room`, the number of fragments that may wait, are at
    /// least 1. Refuses only for want of memory.
    pub fn new(alloc: Global, plan: &Plan, executors: u32, room: u32) -> Result<Board<W>, NoMemory>
        requires executors { 1 ≤ executors }
        requires room { 1 ≤ room }
        ensures { IfOk result (λ board. board ≡ no_board plan.now executors room) }
    {
        let answers = no_answers(alloc, plan.fragments().len())?;
        let schedule = Schedule::new(alloc, plan, executors, room)?;
        Ok(Board {
            schedule,
            answers,
            world: PhantomData,
        })
    }

    /// Ends an attempt with a result of the board's plan and of the attempt's fragment. Its answer is kept where the attempt is its
    /// fragment's current one and runs; else nothing changes, the result is let go, and the number of the current attempt is told.
    /// It takes no memory.
    pub fn finish(&mut self, attempt: Attempt, kept: Kept<W>) -> Finish
        requires plan { kept.plan ≡ self.old.history.plan }
        requires fragment { kept.fragment ≡ attempt.fragment }
        ensures { Finishes self.old attempt kept.answer result self.new }
    {
        let answer = kept.into_answer();
        if let Finish::Stale { current } = self.schedule.finish(attempt) {
            return Finish::Stale { current };
        }
        self.answers[attempt.fragment as usize] = Some(answer);
        Finish::Kept
    }

    /// Offers an absent fragment, as `Schedule` does. Refuses only for want of memory, and leaves all as it was.
    pub fn offer(&mut self, fragment: u32) -> Result<Offer, NoMemory>
        requires { slice_get self.old.history.state.statuses fragment ≡ Some status.Absent }
        ensures ok { IfOk result (λ offer. Offers self.old.history fragment offer self.new.history) }
        ensures answers { self.new.answers ≡ self.old.answers }
        ensures refused { OnErr result (self.new ≡ self.old) }
    {
        self.schedule.offer(fragment)
    }

    /// Starts the first of the waiting by an idle executor, as `Schedule` does. Refuses only for want of memory, or where the
    /// number is the greatest of its type; it leaves all as it was.
    pub fn start(&mut self, executor: u32) -> Result<Option<Attempt>, NoMemory>
        requires { slice_get self.old.history.state.runners executor ≡ Some None }
        ensures ok { IfOk result (λ started. Starts self.old.history executor started self.new.history) }
        ensures answers { self.new.answers ≡ self.old.answers }
        ensures refused { OnErr result (self.new ≡ self.old) }
    {
        self.schedule.start(executor)
    }

    /// Stops a running fragment that can't finish for a waiting one that can, as `Schedule` does. It takes no memory.
    pub fn review(&mut self) -> Option<Preempt>
        ensures reviews { Reviews self.old.history result self.new.history }
        ensures answers { self.new.answers ≡ self.old.answers }
    {
        self.schedule.review()
    }

    /// Ends an attempt without a result, where it is its fragment's current one and runs; else nothing changes, and the number of
    /// the current attempt is told. It takes no memory.
    pub fn give_up(&mut self, attempt: Attempt) -> Finish
        requires { attempt.fragment < length self.old.history.plan }
        ensures ends { Ends self.old.history attempt (event.GaveUp attempt) result self.new.history }
        ensures answers { self.new.answers ≡ self.old.answers }
    {
        self.schedule.give_up(attempt)
    }

    /// The number of the fragment's current attempt, exactly where it is greater than the attempt's.
    pub fn killed(&self, attempt: Attempt) -> Option<u32>
        requires { attempt.fragment < length self.now.history.plan }
        ensures { Kills self.now.history attempt result }
    {
        self.schedule.killed(attempt)
    }

    /// Where a fragment is.
    pub fn status(&self, fragment: u32) -> FragmentStatus
        requires { fragment < length self.now.history.plan }
        ensures { slice_get self.now.history.state.statuses fragment ≡ Some result }
    {
        self.schedule.status(fragment)
    }

    /// Whether there is an executor of that number, and it is idle.
    pub fn idle(&self, executor: u32) -> bool
        ensures { IsTrue result ↔ (slice_get self.now.history.state.runners executor ≡ Some None) }
    {
        self.schedule.idle(executor)
    }

    /// The plan, lent.
    pub fn plan(&self) -> &Plan
        ensures { result.now ≡ self.now.history.plan }
    {
        self.schedule.plan()
    }

    /// The events, lent. They are legal, and the state is what they come to.
    pub fn history(&self) -> &[BoardEvent]
        ensures events { result.now ≡ self.now.history.events }
        ensures legal { IsLegal self.now.history }
        ensures replayed { IsReplayed self.now.history }
    {
        self.schedule.history()
    }

    /// How often each thing happened.
    pub fn totals(&self) -> BoardTotals
        ensures { result ≡ totals_of self.now.history.events }
    {
        self.schedule.totals()
    }

    /// The answer of a fragment, lent, exactly where the fragment is finished. It has the fragment's shape and, where the world tells
    /// its files, is what the fragment means.
    pub fn result(&self, fragment: u32) -> Option<&Answer>
        requires { fragment < length self.now.history.plan }
        ensures answer { option_copied result ≡ option_flatten (slice_get self.now.answers fragment) }
        ensures finished { IsSome result ↔ (status_by_replay self.now.history fragment ≡ Some status.Finished) }
        ensures kept { IfSome result (λ answer. IsKept W.files self.now.history.plan fragment answer.now) }
    {
        let _ = self.schedule.history();
        self.answers[fragment as usize].as_ref()
    }
}
