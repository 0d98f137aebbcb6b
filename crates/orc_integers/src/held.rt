//! The values that a decoder has read and not yet given.
ghost use Rattle.std.specs.Prelude.{◌≡◌, ◌≤◌, ◌<◌, [], ◌++◌, length, take, drop};

use crate::run_room::RunRoom;
use std::marker::Model;

/// Values of a run, in order. It is seen as the list of those that were not given yet.
///
/// A decoder reads a run straight into the front of `values`, and then says by `from` and `to` where its values
/// stand.
#[derive(Drop)]
pub struct Held {
    /// Room for the values of one run, `MOST` in all.
    pub values: Vec<i64>,
    /// Where the first value stands that was not given yet.
    pub from: usize,
    /// Where the last value ends.
    pub to: usize,
}

impl Model for Held {
    ghost use Rattle.std.specs.Prelude.{◌≡◌, ◌-◌, ◌≤◌, List, ℤ, length, take, drop};

    ghost Value = { List ℤ };

    ghost view = { λ held. take (held.to - held.from) (drop held.from held.values.items) };

    ghost invariant = { λ held. (held.from ≤ held.to) × (held.to ≤ 512) × (length held.values.items ≡ 512) };
}

impl Held {
    /// No values, with that room for a run.
    pub fn new(room: RunRoom) -> Held
        ensures { result ≡ [] }
    {
        let RunRoom { values } = room;
        Held {
            values,
            from: 0,
            to: 0,
        }
    }

    /// Lets go of all values.
    pub fn clear(&mut self)
        ensures { self.new ≡ [] }
    {
        self.from = 0;
        self.to = 0;
    }

    /// Gives as many values as there is room for, and answers how many. Entries behind them stay as they were.
    pub fn give(&mut self, out: &mut [i64]) -> usize
        ensures room { result ≤ length out.old }
        ensures parts { self.old ≡ take result out.new ++ self.new }
        ensures all { result < length out.old → self.new ≡ [] }
        ensures behind { drop result out.new ≡ drop result out.old }
    {
        let held = &self.values[self.from..self.to];
        let count = held.len().min(out.len());
        let (front, _) = out.split_at_mut(count);
        front.copy_from_slice(&held[..count]);
        self.from += count;
        count
    }
}
