ghost use Rattle.std.specs.Prelude.{◌≡◌, ◌≤◌, ◌<◌, ◌+◌, ℕ, List, [], ◌∷◌, length, Option, None, Some, IfOk, IfSome, OnOk, OnErr, is_ok, if◌then◌else◌, option_map, position, slice_range};
ghost use Rattle.std.specs.Str.{bytes_eq};
ghost use Rattle.outside.specs.Cause.{HasCause, Rose};
ghost use Rattle.outside.specs.Failing.{counted};
ghost use Rattle.outside.specs.Folder.{AreNames};
ghost use Rattle.outside.specs.Files.{Files, file_named, HasBytes, IsFile, range_of};
ghost use Rattle.outside.specs.Told.{Extended};
ghost use Rattle.outside.specs.declared.file_ref.FileRange.{FileRange};

use crate::{Failed, FileRef, Name, RealWorld, Store};
use std::fs::{self, File};
use std::io;
use std::marker::Model;
use std::os::unix::fs::FileExt;
use std::rt::Files;

/// The files of the current folder as a store. It tells nothing of what they hold, and keeps no log.
///
/// A file's number is its index in the list of names that the store was made with. `find` fails where the
/// length of a listed file can't be had, and a read that ends early fails. Contracts see the names and how
/// often a call has failed.
#[derive(Drop)]
pub struct FolderStore<'a, R: Files<File = File> + Drop> {
    files: R,
    names: &'a [Name],
    opened: Option<(u32, File)>,
    faults: u64,
}

impl<'a, R: Files<File = File> + Drop> Model for FolderStore<'a, R> {
    ghost use Rattle.outside.specs.Folder.{AreNames, FolderOf};

    ghost Value = { FolderOf };

    ghost view = { λ s. record { names = s.names.now; faults = s.faults } };

    ghost invariant = { λ s. AreNames s.names.now };
}

impl<'a, R: Files<File = File> + Drop> FolderStore<'a, R> {
    /// A store of the files with these names: at most 4,095, sorted by their bytes, each once.
    pub fn new(files: R, names: &'a [Name]) -> FolderStore<'a, R>
        requires { AreNames names.now }
        ensures { result ≡ record { names = names.now; faults = 0 } }
    {
        FolderStore {
            files,
            names,
            opened: None,
            faults: 0,
        }
    }

    /// Opens the file with that number, unless it is the one that is open.
    fn open(&mut self, number: u32) -> io::Result<()>
        ensures { self.new ≡ self.old }
    {
        if let Some((opened, _)) = &self.opened
            && *opened == number
        {
            return Ok(());
        }
        match self.names.get(number as usize) {
            Some(name) => {
                let file = fs::open(&self.files, name.as_str())?;
                self.opened = Some((number, file));
                Ok(())
            }
            None => Err(io::Error::from(io::ErrorKind::NotFound)),
        }
    }

    /// Reads a range of the file with that number. A range past its end is an error.
    fn read_range(&mut self, number: u32, at: u64, into: &mut [u8]) -> io::Result<()>
        ensures { self.new ≡ self.old }
    {
        self.open(number)?;
        match &self.opened {
            Some((_, file)) => file.read_exact_at(into, at),
            None => Err(io::Error::from(io::ErrorKind::NotFound)),
        }
    }

    fn fail(&mut self) -> Failed
        ensures after { self.new ≡ record self.old { faults = counted self.old.faults } }
        ensures rose { Rose self.old.faults self.new.faults }
        ensures later { self.old.faults ≤ self.new.faults }
    {
        self.faults = self.faults.saturating_add(1);
        Failed
    }
}

fn place_of(names: &[Name], name: &str) -> Option<usize>
    ensures { result ≡ position (λ candidate. bytes_eq candidate name.now) names.now }
{
    names
        .iter()
        .position(|candidate| candidate.as_str() == name)
}

impl<'a, R: Files<File = File> + Drop> Store<RealWorld> for FolderStore<'a, R> {
    ghost reads = { λ _. None };

    ghost fault_count = { λ s. s.faults };

    fn find(&mut self, name: &str) -> Result<Option<FileRef>, Failed>
        ensures found { IfOk result (λ found. (told : Files) → None ≡ Some told → found ≡ file_named name.now told) }
        ensures number { IfOk result (λ found. IfSome found (λ file. file.number < 4096)) }
        ensures cause { HasCause self.old.faults self.new.faults result }
        ensures place { IfOk result (λ found. option_map (λ file. file.number) found
            ≡ position (λ candidate. bytes_eq candidate name.now) self.old.names) }
        ensures count { self.new ≡ record self.old { faults = (if is_ok result then self.old.faults else counted self.old.faults) } }
    {
        let Some(place) = place_of(self.names, name) else {
            return Ok(None);
        };
        match fs::metadata(&self.files, name) {
            Ok(metadata) => Ok(Some(FileRef {
                number: place as u32,
                len: metadata.len(),
            })),
            Err(_) => Err(self.fail()),
        }
    }

    fn read_at(&mut self, file: FileRef, at: u64, into: &mut [u8]) -> Result<(), Failed>
        requires in_range { at + length into.old ≤ file.len }
        requires is_file { IsFile None file }
        ensures bytes { OnOk result ((bytes : List ℕ) → HasBytes None file bytes
            → into.new ≡ slice_range bytes at (at + length into.new)) }
        ensures reads { OnOk result (Extended {A = FileRange} None None (range_of file at (length into.new) ∷ [])) }
        ensures refused { OnErr result (◌≡◌ {A = Option (List FileRange)} None None) }
        ensures cause { HasCause self.old.faults self.new.faults result }
        ensures count { self.new ≡ record self.old { faults = (if is_ok result then self.old.faults else counted self.old.faults) } }
    {
        match self.read_range(file.number, at, into) {
            Ok(()) => Ok(()),
            Err(_) => Err(self.fail()),
        }
    }

    fn faults(&self) -> u64 {
        self.faults
    }
}
