ghost use Rattle.std.specs.Prelude.{◌≡◌, ◌<◌, ◌≤◌, ◌↔◌, ◌++◌, ℕ, List, [], length, take, drop, min, Some, IfOk, OnErr, IsErr, IsTrue};
ghost use Rattle.outside.specs.Cause.{HasCause};
ghost use Rattle.outside.specs.Told.{TakenFrom};
ghost use Rattle.outside.specs.Failing.{fails_next, after_next};

use crate::failing::Failing;
use crate::{Bytes, Failed, Source, SureSource};
use std::marker::Model;

/// A source that holds its bytes in memory, and fails at the reads that it was told to.
///
/// Reads are counted from 1. Contracts see the bytes that are left, and its failing reads.
#[derive(Drop)]
pub struct MemorySource {
    source: SureSource,
    failing: Failing,
}

impl Model for MemorySource {
    ghost use Rattle.outside.specs.Memory.{SourceOf};

    ghost Value = { SourceOf };

    ghost view = { λ s. record { left = s.source; failing = s.failing } };
}

impl MemorySource {
    /// A source of these bytes, with the numbers of the reads that are to fail.
    pub fn new(bytes: Bytes, failing: Vec<u64>) -> MemorySource
        ensures { result ≡ record { left = bytes; failing = record { numbers = failing.items; calls = 0; faults = 0 } } }
    {
        MemorySource {
            source: SureSource::new(bytes),
            failing: Failing::new(failing),
        }
    }
}

impl Source for MemorySource {
    ghost left = { λ s. Some s.left };

    ghost fault_count = { λ s. s.failing.faults };

    fn read(&mut self, into: &mut [u8]) -> Result<usize, Failed>
        ensures fits { IfOk result (λ n. n ≤ length into.new) }
        ensures bytes { IfOk result (λ n. (bytes : List ℕ) → Some self.old.left ≡ Some bytes
            → TakenFrom bytes n into.new (Some self.new.left)) }
        ensures end { IfOk result (λ n. n ≡ 0 → 0 < length into.new → (bytes : List ℕ) → Some self.old.left ≡ Some bytes
            → bytes ≡ []) }
        ensures refused { OnErr result (self.new.left ≡ self.old.left) }
        ensures cause { HasCause self.old.failing.faults self.new.failing.faults result }
        ensures fails { IsErr result ↔ IsTrue (fails_next self.old.failing) }
        ensures counted { self.new.failing ≡ after_next self.old.failing }
        ensures exact { IfOk result (λ n. (n ≡ min (length into.new) (length self.old.left))
            × (take n into.new ≡ take n self.old.left) × (self.new.left ≡ drop n self.old.left)) }
    {
        self.failing.call()?;
        self.source.read(into)
    }
}
