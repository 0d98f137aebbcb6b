//! What a history comes to, found anew from its events and the plan, by plain means.
use fragment_plan::{Plan, named_by, width};
use wait_queue::{Attempt, BoardEvent, FragmentStatus};

/// Fragments below this number are looked at.
pub const MOST: u32 = 32;

/// Keys of fragments that can't finish are at least this.
pub const BLOCKED: u64 = 1_099_511_627_776;

/// Where each fragment is, the number of its current attempt, and which executors are idle. There are at most 32 fragments and eight
/// executors; of what the plan or the board doesn't have, there is nothing, and none is idle.
#[derive(Clone, Copy, Drop)]
pub struct Replayed {
    pub statuses: [Option<FragmentStatus>; 32],
    pub numbers: [u32; 32],
    pub idle: [bool; 8],
}

fn put<T: Copy + Drop>(xs: &mut [T], at: u32, x: T) {
    if let Some(place) = xs.get_mut(at as usize) {
        *place = x;
    }
}

/// The replay of events on a board of so many executors.
pub fn replay(plan: &Plan, executors: u32, events: &[BoardEvent]) -> Replayed {
    let mut state = Replayed {
        statuses: [None; 32],
        numbers: [1; 32],
        idle: [false; 8],
    };
    for i in 0..plan.fragments().len().min(32) {
        state.statuses[i] = Some(FragmentStatus::Absent);
    }
    for i in 0..executors {
        put(&mut state.idle, i, true);
    }
    for event in events {
        state.step(*event);
    }
    state
}

impl Replayed {
    fn step(&mut self, event: BoardEvent) {
        match event {
            BoardEvent::Offered(fragment) => {
                put(&mut self.statuses, fragment, Some(FragmentStatus::Waiting))
            }
            BoardEvent::Evicted(fragment) => {
                put(&mut self.statuses, fragment, Some(FragmentStatus::Absent))
            }
            BoardEvent::Rejected(_) => {}
            BoardEvent::Started(attempt) => {
                self.moves(attempt, FragmentStatus::Running(attempt), false)
            }
            BoardEvent::Preempted { victim, .. } => {
                let next = self.number(victim.fragment).wrapping_add(1);
                put(&mut self.numbers, victim.fragment, next);
                self.moves(victim, FragmentStatus::Absent, true);
            }
            BoardEvent::Finished(attempt) => self.moves(attempt, FragmentStatus::Finished, true),
            BoardEvent::GaveUp(attempt) => self.moves(attempt, FragmentStatus::GaveUp, true),
        }
    }

    fn moves(&mut self, attempt: Attempt, status: FragmentStatus, idle: bool) {
        put(&mut self.statuses, attempt.fragment, Some(status));
        put(&mut self.idle, attempt.executor, idle);
    }

    /// Where a fragment is.
    pub fn status(&self, fragment: u32) -> Option<FragmentStatus> {
        match self.statuses.get(fragment as usize) {
            Some(status) => *status,
            None => None,
        }
    }

    /// The number of a fragment's current attempt.
    pub fn number(&self, fragment: u32) -> u32 {
        match (self.status(fragment), self.numbers.get(fragment as usize)) {
            (Some(_), Some(number)) => *number,
            _ => 0,
        }
    }

    fn can_finish(&self, plan: &Plan, fragment: u32) -> bool {
        if fragment as usize >= plan.fragments().len() {
            return false;
        }
        for i in 0..200 {
            let Some(named) = named_by(plan, fragment, i) else {
                return true;
            };
            match self.status(named) {
                Some(FragmentStatus::Finished | FragmentStatus::GaveUp) => {}
                _ => return false,
            }
        }
        false
    }

    /// A number that is less for what comes first in the order of the queue: the fragment's, its width, and whether it is blocked.
    pub fn key(&self, plan: &Plan, fragment: u32) -> u64 {
        if fragment as usize >= plan.fragments().len() {
            return 0;
        }
        let columns = u64::from(width(plan, fragment).min(1000));
        let place = columns * 65_536 + u64::from(fragment.min(65_535));
        if self.can_finish(plan, fragment) {
            return place;
        }
        BLOCKED + place
    }

    /// The least and the greatest key of the waiting, and how many wait.
    pub fn waiting(&self, plan: &Plan) -> (u64, u64, u32) {
        let mut found = (u64::MAX, 0, 0u32);
        for fragment in 0..MOST {
            if self.status(fragment) == Some(FragmentStatus::Waiting) {
                let key = self.key(plan, fragment);
                found = (found.0.min(key), found.1.max(key), found.2.wrapping_add(1));
            }
        }
        found
    }

    /// Of the running that can't finish, the attempt of the greatest key.
    pub fn last_blocked(&self, plan: &Plan) -> Option<Attempt> {
        let mut greatest = BLOCKED;
        let mut last = None;
        for fragment in 0..MOST {
            if let Some(FragmentStatus::Running(attempt)) = self.status(fragment) {
                let key = self.key(plan, fragment);
                if key >= greatest {
                    greatest = key;
                    last = Some(attempt);
                }
            }
        }
        last
    }
}
