ghost use Rattle.std.specs.Prelude.{◌≡◌, ◌<◌, ◌≤◌, ◌+◌, ℕ, List, [], ◌∷◌, length, Option, Some, IfOk, IfSome, OnOk, OnErr, slice_range};
ghost use Rattle.outside.specs.declared.file_ref.FileRange.{FileRange};
ghost use Rattle.outside.specs.Cause.{HasCause};
ghost use Rattle.outside.specs.Files.{Files, file_named, HasBytes, IsFile, range_of};
ghost use Rattle.outside.specs.Told.{Extended};

use crate::{Failed, FileRef, World};

/// The files of a world, as something that can be asked for a file and read.
///
/// Where the world tells its files, the store's files are those.
pub trait Store<W: World> {
    /// The reads that answered `Ok`, in their order, or none where the store doesn't tell them.
    ghost reads: { Self → Option (List FileRange) };

    /// How often a call has failed: a number that doesn't fall.
    ghost fault_count: { Self → ℕ };

    /// Looks up a file by its name.
    ///
    /// Answers None where there is no such file. `Failed` comes only where the count of faults rose. The log of
    /// reads stays as it is.
    fn find(&mut self, name: &str) -> Result<Option<FileRef>, Failed>
        ensures found { IfOk result (λ found. (told : Files) → W.files ≡ Some told → found ≡ file_named name.now told) }
        ensures number { IfOk result (λ found. IfSome found (λ file. file.number < 4096)) }
        ensures reads { reads self.new ≡ reads self.old }
        ensures cause { HasCause (fault_count self.old) (fault_count self.new) result };

    /// Reads a range of a file, from `at` on, in bytes from the file's first, to fill `into`.
    ///
    /// After `Failed`, which comes only where the count of faults rose, what `into` holds isn't promised, and
    /// the log of reads is as before.
    fn read_at(&mut self, file: FileRef, at: u64, into: &mut [u8]) -> Result<(), Failed>
        requires in_range { at + length into.old ≤ file.len }
        requires is_file { IsFile W.files file }
        ensures bytes { OnOk result ((bytes : List ℕ) → HasBytes W.files file bytes
            → into.new ≡ slice_range bytes at (at + length into.new)) }
        ensures reads { OnOk result (Extended (reads self.old) (reads self.new)
            (range_of file at (length into.new) ∷ [])) }
        ensures refused { OnErr result (reads self.new ≡ reads self.old) }
        ensures cause { HasCause (fault_count self.old) (fault_count self.new) result };

    /// How often a call has failed. The count stands still at the greatest number.
    fn faults(&self) -> u64
        ensures { result ≡ fault_count self.now };
}
