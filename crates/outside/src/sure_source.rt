ghost use Rattle.std.specs.Prelude.{◌≡◌, ◌<◌, ◌≤◌, ◌++◌, ℕ, List, [], length, take, drop, min, Some, IfOk, IsOk, OnErr};
ghost use Rattle.outside.specs.Cause.{HasCause};
ghost use Rattle.outside.specs.Told.{TakenFrom};

use crate::{Bytes, Failed, Source};
use std::marker::Model;

/// A source that holds its bytes in memory and never fails.
///
/// Contracts see the bytes that are left.
#[derive(Drop)]
pub struct SureSource {
    bytes: Bytes,
    taken: usize,
}

impl Model for SureSource {
    ghost use Rattle.std.specs.Prelude.{◌≤◌, ℕ, List, length, drop};

    ghost Value = { List ℕ };

    ghost view = { λ s. drop s.taken s.bytes };

    ghost invariant = { λ s. s.taken ≤ length s.bytes };
}

impl SureSource {
    /// A source of these bytes.
    pub fn new(bytes: Bytes) -> SureSource
        ensures { result ≡ bytes }
    {
        SureSource { bytes, taken: 0 }
    }
}

impl Source for SureSource {
    ghost left = { λ s. Some s };

    ghost fault_count = { λ _. 0 };

    fn read(&mut self, into: &mut [u8]) -> Result<usize, Failed>
        ensures fits { IfOk result (λ n. n ≤ length into.new) }
        ensures bytes { IfOk result (λ n. (bytes : List ℕ) → Some self.old ≡ Some bytes
            → TakenFrom bytes n into.new (Some self.new)) }
        ensures end { IfOk result (λ n. n ≡ 0 → 0 < length into.new → (bytes : List ℕ) → Some self.old ≡ Some bytes
            → bytes ≡ []) }
        ensures refused { OnErr result (self.new ≡ self.old) }
        ensures cause { HasCause 0 0 result }
        ensures sure { IsOk result }
        ensures exact { IfOk result (λ n. (n ≡ min (length into.new) (length self.old))
            × (take n into.new ≡ take n self.old) × (self.new ≡ drop n self.old)) }
    {
        let left = &self.bytes.as_slice()[self.taken..];
        let n = left.len().min(into.len());
        into[..n].copy_from_slice(&left[..n]);
        self.taken += n;
        Ok(n)
    }
}
