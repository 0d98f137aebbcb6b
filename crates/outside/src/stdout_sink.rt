ghost use Rattle.std.specs.Prelude.{◌≡◌, ◌≤◌, ℕ, length, take, None, OnOk, OnErr, is_ok, if◌then◌else◌};
ghost use Rattle.outside.specs.Cause.{HasCause};
ghost use Rattle.outside.specs.Failing.{counted};
ghost use Rattle.outside.specs.Told.{Extended};
ghost use Rattle.outside.specs.Writing.{WritesWhole};

use crate::writing::write_whole;
use crate::{Failed, Sink};
use std::io::Write;
use std::marker::Model;

/// Standard output, or another writer, as a sink. It tells nothing of what was written.
///
/// Contracts see the writer, and how often a write has failed. Where it is known what the writer holds, a
/// write adds all of its bytes, or fails after a front of them.
#[derive(Drop)]
pub struct StdoutSink<P: Write + Drop> {
    output: P,
    faults: u64,
}

impl<P: Write + Drop> Model for StdoutSink<P> {
    ghost use Rattle.outside.specs.Writing.{WriterOf};

    ghost Value = { WriterOf P };

    ghost view = { λ s. record { output = s.output; faults = s.faults } };
}

impl<P: Write + Drop> StdoutSink<P> {
    /// A sink that hands all to that writer, and flushes it after each write.
    pub fn new(output: P) -> StdoutSink<P>
        ensures { result ≡ record { output = output; faults = 0 } }
    {
        StdoutSink { output, faults: 0 }
    }
}

impl<P: Write + Drop> Sink for StdoutSink<P> {
    ghost content = { λ _. None };

    ghost fault_count = { λ s. s.faults };

    fn write(&mut self, bytes: &[u8]) -> Result<(), Failed>
        ensures written { OnOk result (Extended None None bytes.now) }
        ensures front { OnErr result ((n : ℕ) × (n ≤ length bytes.now) × Extended None None (take n bytes.now)) }
        ensures cause { HasCause self.old.faults self.new.faults result }
        ensures count { self.new.faults ≡ (if is_ok result then self.old.faults else counted self.old.faults) }
        ensures known { WritesWhole (P.contents self.old.output) (P.contents self.new.output) result bytes.now }
    {
        match write_whole(&mut self.output, bytes) {
            Ok(()) => Ok(()),
            Err(_) => {
                self.faults = self.faults.saturating_add(1);
                Err(Failed)
            }
        }
    }
}
