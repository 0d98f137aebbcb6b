ghost use Rattle.std.specs.Prelude.{◌≡◌, ◌≤◌, ℕ, List, take, length, Option, OnOk, OnErr};
ghost use Rattle.outside.specs.Cause.{HasCause};
ghost use Rattle.outside.specs.Told.{Extended};

use crate::Failed;

/// Where bytes go.
pub trait Sink {
    /// The bytes that were written, or none where the sink doesn't tell them.
    ghost content: { Self → Option (List ℕ) };

    /// How often a write has failed: a number that doesn't fall.
    ghost fault_count: { Self → ℕ };

    /// Writes all the bytes.
    ///
    /// After `Failed`, which comes only where the count of faults rose, a front of them was written.
    fn write(&mut self, bytes: &[u8]) -> Result<(), Failed>
        ensures written { OnOk result (Extended (content self.old) (content self.new) bytes.now) }
        ensures front { OnErr result ((n : ℕ) × (n ≤ length bytes.now)
            × Extended (content self.old) (content self.new) (take n bytes.now)) }
        ensures cause { HasCause (fault_count self.old) (fault_count self.new) result };
}
