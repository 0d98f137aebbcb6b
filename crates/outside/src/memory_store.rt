ghost use Rattle.std.specs.Prelude.{◌≡◌, ◌<◌, ◌≤◌, ◌+◌, ◌↔◌, ℕ, List, [], ◌∷◌, length, Option, Some, IfOk, IfSome, OnOk, OnErr, IsTrue, IsErr, slice_range, option_copied, if◌then◌else◌};
ghost use Rattle.outside.specs.Cause.{HasCause};
ghost use Rattle.outside.specs.Files.{Files, file_named, HasBytes, IsFile, range_of};
ghost use Rattle.outside.specs.Told.{Extended};
ghost use Rattle.outside.specs.Log.{told_within};
ghost use Rattle.outside.specs.Failing.{fails_next, after_next};

use crate::failing::Failing;
use crate::{Bytes, Failed, FileRange, FileRef, Name, NoMemory, Store, SureStore, World};
use std::alloc::Global;
use std::marker::Model;

/// A store that holds its files in memory, and fails at the calls that it was told to.
///
/// `find` and `read_at` are counted together, from 1. Contracts see the reads that it tells, or none, how
/// many reads it has room for, and its failing calls. Past that room it still answers, and tells no reads
/// from then on.
#[derive(Drop)]
pub struct MemoryStore<W: World> {
    store: SureStore<W>,
    failing: Failing,
}

impl<W: World> Model for MemoryStore<W> {
    ghost use Rattle.outside.specs.Memory.{StoreOf};

    ghost Value = { StoreOf };

    ghost view = { λ s. record { reads = s.store.items; room = s.store.room; failing = s.failing } };
}

impl<W: World> MemoryStore<W> {
    /// A store of the world's files, with the numbers of the calls that are to fail, and room for the log
    /// of so many reads; `NoMemory` where memory for that room is refused.
    pub fn new(
        alloc: Global,
        files: Vec<(Name, Bytes)>,
        failing: Vec<u64>,
        room: u32,
    ) -> Result<MemoryStore<W>, NoMemory>
        requires { W.files ≡ Some files.items }
        ensures { IfOk result (λ store. store ≡ record {
          reads = Some [];
          room = room;
          failing = record { numbers = failing.items; calls = 0; faults = 0 };
        }) }
    {
        Ok(MemoryStore {
            store: SureStore::new(alloc, files, room)?,
            failing: Failing::new(failing),
        })
    }

    /// The reads that it tells.
    pub fn logged(&self) -> Option<&[FileRange]>
        ensures { option_copied result ≡ self.now.reads }
    {
        self.store.logged()
    }
}

impl<W: World> Store<W> for MemoryStore<W> {
    ghost reads = { λ s. s.reads };

    ghost fault_count = { λ s. s.failing.faults };

    fn find(&mut self, name: &str) -> Result<Option<FileRef>, Failed>
        ensures found { IfOk result (λ found. (told : Files) → W.files ≡ Some told → found ≡ file_named name.now told) }
        ensures number { IfOk result (λ found. IfSome found (λ file. file.number < 4096)) }
        ensures reads { self.new.reads ≡ self.old.reads }
        ensures cause { HasCause self.old.failing.faults self.new.failing.faults result }
        ensures fails { IsErr result ↔ IsTrue (fails_next self.old.failing) }
        ensures after { self.new ≡ record self.old { failing = after_next self.old.failing } }
    {
        self.failing.call()?;
        self.store.find(name)
    }

    fn read_at(&mut self, file: FileRef, at: u64, into: &mut [u8]) -> Result<(), Failed>
        requires in_range { at + length into.old ≤ file.len }
        requires is_file { IsFile W.files file }
        ensures bytes { OnOk result ((bytes : List ℕ) → HasBytes W.files file bytes
            → into.new ≡ slice_range bytes at (at + length into.new)) }
        ensures reads { OnOk result (Extended self.old.reads self.new.reads (range_of file at (length into.new) ∷ [])) }
        ensures refused { OnErr result (self.new.reads ≡ self.old.reads) }
        ensures cause { HasCause self.old.failing.faults self.new.failing.faults result }
        ensures fails { IsErr result ↔ IsTrue (fails_next self.old.failing) }
        ensures after { self.new ≡ record self.old {
          reads = (if fails_next self.old.failing then self.old.reads
              else told_within self.old.room self.old.reads (range_of file at (length into.new) ∷ []));
          failing = after_next self.old.failing;
        } }
    {
        self.failing.call()?;
        self.store.read_at(file, at, into)
    }

    fn faults(&self) -> u64 {
        self.failing.faults()
    }
}
