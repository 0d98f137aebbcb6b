ghost use Rattle.std.specs.Prelude.{◌≡◌, ◌≤◌, ◌<◌, ℕ, List, [], length, Option, Some, IfOk};
ghost use Rattle.outside.specs.Cause.{HasCause};
ghost use Rattle.outside.specs.Told.{TakenFrom};

use crate::Failed;

/// Where bytes come from, once and in order.
pub trait Source {
    /// The bytes that are left, or none where the source doesn't tell them.
    ghost left: { Self → Option (List ℕ) };

    /// How often a read has failed: a number that doesn't fall.
    ghost fault_count: { Self → ℕ };

    /// Places bytes at the front of `into`, and answers how many: 0 for an `into` that isn't empty only at
    /// the end.
    ///
    /// After `Failed`, which comes only where the count of faults rose, what is left isn't promised.
    fn read(&mut self, into: &mut [u8]) -> Result<usize, Failed>
        ensures fits { IfOk result (λ n. n ≤ length into.new) }
        ensures bytes { IfOk result (λ n. (bytes : List ℕ) → left self.old ≡ Some bytes
            → TakenFrom bytes n into.new (left self.new)) }
        ensures end { IfOk result (λ n. n ≡ 0 → 0 < length into.new → (bytes : List ℕ) → left self.old ≡ Some bytes
            → bytes ≡ []) }
        ensures cause { HasCause (fault_count self.old) (fault_count self.new) result };
}
