ghost use Rattle.std.specs.Prelude.{◌≡◌, ◌<◌, ◌≤◌, ◌+◌, ℕ, List, [], ◌∷◌, ◌++◌, length, OnOk, slice_range};
ghost use Rattle.outside.specs.Cause.{HasCause};
ghost use Rattle.outside.specs.Files.{HasBytes, IsFile};
ghost use Rattle.outside.specs.Reads.{ReadEntry, read_entry};

use crate::{Failed, FileRef, World};

/// A way to read ranges of files: a store directly, or a cache in front of one.
pub trait RangeReader<W: World> {
    /// How often a read has failed: a number that doesn't fall.
    ghost fault_count: { Self → ℕ };

    /// The reader before, reads, and the reader after: it went from the one to the other by these reads,
    /// in their order.
    ghost went: { Self → List ReadEntry → Self → Type 0 };

    /// Reads a range of a file, from `at` on, in bytes from the file's first, to fill `into`.
    ///
    /// A file's number is below 4,096, and its length at most 4,294,967,295 bytes.
    ///
    /// After `Failed`, which comes only where the count of faults rose, what `into` holds isn't promised.
    fn read(&mut self, file: FileRef, at: u64, into: &mut [u8]) -> Result<(), Failed>
        requires in_range { at + length into.old ≤ file.len }
        requires number { file.number < 4096 }
        requires len { file.len ≤ 4294967295 }
        requires is_file { IsFile W.files file }
        ensures bytes { OnOk result ((bytes : List ℕ) → HasBytes W.files file bytes
            → into.new ≡ slice_range bytes at (at + length into.new)) }
        ensures went { went self.old (read_entry file at (length into.new) result ∷ []) self.new }
        ensures cause { HasCause (fault_count self.old) (fault_count self.new) result };

    /// Where nothing was done, it went by no reads.
    ghost went_nowhere: { (reader : Self) → went reader [] reader };

    /// Where one list of reads follows another, it went by the joined list.
    ghost went_on: { (first between last : Self) (front back : List ReadEntry)
        → went first front between → went between back last → went first (front ++ back) last };

    /// One read, and then a list of reads.
    ghost went_next: { (first between last : Self) (entry : ReadEntry) (rest : List ReadEntry)
        → went first (entry ∷ []) between → went between rest last → went first (entry ∷ rest) last };
}
