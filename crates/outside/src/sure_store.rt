ghost use Rattle.std.specs.Prelude.{◌≡◌, ◌<◌, ◌≤◌, ◌+◌, ℕ, List, [], ◌∷◌, length, Option, Some, IfOk, IfSome, IsOk, OnOk, OnErr, IsTrue, ◌↔◌, slice_range, option_copied};
ghost use Rattle.outside.specs.Cause.{HasCause};
ghost use Rattle.outside.specs.Files.{Files, file_named, HasBytes, IsFile, range_of};
ghost use Rattle.outside.specs.Told.{Extended};
ghost use Rattle.outside.specs.Log.{told_within};

use crate::log::Log;
use crate::{Bytes, Failed, FileRange, FileRef, Name, NoMemory, Store, World};
use std::alloc::Global;
use std::marker::{Model, PhantomData};

/// A store that holds its files in memory and never fails.
///
/// Contracts see the reads that it tells, or none, and how many reads it has room for. Past that room it
/// still answers, and tells no reads from then on.
#[derive(Drop)]
pub struct SureStore<W: World> {
    files: Vec<(Name, Bytes)>,
    log: Log<FileRange>,
    world: PhantomData<W>,
}

impl<W: World> Model for SureStore<W> {
    ghost use Rattle.std.specs.Prelude.{◌≡◌, Some};
    ghost use Rattle.outside.specs.declared.file_ref.FileRange.{FileRange};
    ghost use Rattle.outside.specs.Log.{LogOf};

    ghost Value = { LogOf FileRange };

    ghost view = { λ s. s.log };

    ghost invariant = { λ s. W.files ≡ Some s.files.items };
}

impl<W: World> SureStore<W> {
    /// A store of the world's files, with room for the log of so many reads; `NoMemory` where memory for that
    /// room is refused.
    pub fn new(
        alloc: Global,
        files: Vec<(Name, Bytes)>,
        room: u32,
    ) -> Result<SureStore<W>, NoMemory>
        requires { W.files ≡ Some files.items }
        ensures { IfOk result (λ store. store ≡ record { items = Some []; room = room }) }
    {
        let log = Log::new(alloc, room as usize)?;
        Ok(SureStore {
            files,
            log,
            world: PhantomData,
        })
    }

    /// The reads that it tells.
    pub fn logged(&self) -> Option<&[FileRange]>
        ensures { option_copied result ≡ self.now.items }
    {
        self.log.items()
    }
}

fn look_up(files: &[(Name, Bytes)], name: &str) -> Option<FileRef>
    requires { length files.now ≤ 4096 }
    ensures found { result ≡ file_named name.now files.now }
    ensures number { IfSome result (λ file. file.number < 4096) }
{
    let mut number = 0;
    let mut rest = files;
    while let [(candidate, bytes), others @ ..] = rest {
        if candidate.as_str() == name {
            return Some(FileRef {
                number,
                len: bytes.len() as u64,
            });
        }
        number += 1;
        rest = others;
    }
    None
}

impl<W: World> Store<W> for SureStore<W> {
    ghost reads = { λ s. s.items };

    ghost fault_count = { λ _. 0 };

    fn find(&mut self, name: &str) -> Result<Option<FileRef>, Failed>
        ensures found { IfOk result (λ found. (told : Files) → W.files ≡ Some told → found ≡ file_named name.now told) }
        ensures number { IfOk result (λ found. IfSome found (λ file. file.number < 4096)) }
        ensures reads { self.new.items ≡ self.old.items }
        ensures cause { HasCause 0 0 result }
        ensures sure { IsOk result }
        ensures same { self.new ≡ self.old }
    {
        Ok(look_up(self.files.as_slice(), name))
    }

    fn read_at(&mut self, file: FileRef, at: u64, into: &mut [u8]) -> Result<(), Failed>
        requires in_range { at + length into.old ≤ file.len }
        requires is_file { IsFile W.files file }
        ensures bytes { OnOk result ((bytes : List ℕ) → HasBytes W.files file bytes
            → into.new ≡ slice_range bytes at (at + length into.new)) }
        ensures reads { OnOk result (Extended self.old.items self.new.items (range_of file at (length into.new) ∷ [])) }
        ensures refused { OnErr result (self.new.items ≡ self.old.items) }
        ensures cause { HasCause 0 0 result }
        ensures sure { IsOk result }
        ensures after { self.new ≡ record self.old {
          items =
              told_within self.old.room self.old.items (range_of file at (length into.new) ∷ []);
        } }
    {
        let (_, bytes) = &self.files[file.number as usize];
        let start = at as usize;
        into.copy_from_slice(&bytes.as_slice()[start..start + into.len()]);
        let range = FileRange {
            file: file.number,
            at,
            len: into.len() as u64,
        };
        self.log.append(&[range]);
        Ok(())
    }

    fn faults(&self) -> u64 {
        0
    }
}
