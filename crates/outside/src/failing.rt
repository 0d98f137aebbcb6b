//! Calls that are to fail, which the store, the source and the sink in memory share.
ghost use Rattle.std.specs.Prelude.{◌≡◌, ◌↔◌, IsTrue, IsErr};
ghost use Rattle.outside.specs.Failing.{fails_next, after_next};
ghost use Rattle.outside.specs.Cause.{HasCause};

use crate::Failed;
use std::marker::Model;

/// Makes calls fail by their numbers, counted from 1.
///
/// Contracts see the numbers, how many calls were made and how many failed. Both counts stand still at
/// their greatest number.
#[derive(Drop)]
pub struct Failing {
    numbers: Vec<u64>,
    calls: u64,
    faults: u64,
}

impl Model for Failing {
    ghost use Rattle.outside.specs.Failing.{FailingOf};

    ghost Value = { FailingOf };

    ghost view = { λ f. record { numbers = f.numbers.items; calls = f.calls; faults = f.faults } };
}

impl Failing {
    /// No call was made yet.
    pub fn new(numbers: Vec<u64>) -> Failing
        ensures { result ≡ record { numbers = numbers.items; calls = 0; faults = 0 } }
    {
        Failing {
            numbers,
            calls: 0,
            faults: 0,
        }
    }

    /// Counts a call, which fails if its number says so.
    pub fn call(&mut self) -> Result<(), Failed>
        ensures fails { IsErr result ↔ IsTrue (fails_next self.old) }
        ensures after { self.new ≡ after_next self.old }
        ensures cause { HasCause self.old.faults self.new.faults result }
    {
        self.calls = self.calls.saturating_add(1);
        if self.numbers.as_slice().contains(&self.calls) {
            self.faults = self.faults.saturating_add(1);
            return Err(Failed);
        }
        Ok(())
    }

    /// How many calls failed.
    pub fn faults(&self) -> u64
        ensures { result ≡ self.now.faults }
    {
        self.faults
    }
}
