//! A store of one file, which may stand below the stores that have a generated one.
ghost use Rattle.std.specs.Prelude.{None};

use outside::{Failed, FileRef, RealWorld, Store};

/// The store of one file. A file of another number can't be read, and such reads are counted as faults.
#[derive(Drop)]
pub struct Under<'a> {
    name: &'a str,
    bytes: &'a [u8],
    faults: u64,
}

impl<'a> Under<'a> {
    /// The store of a file of that name with these bytes.
    pub fn new(name: &'a str, bytes: &'a [u8]) -> Under<'a> {
        Under {
            name,
            bytes,
            faults: 0,
        }
    }
}

impl<'a> Store<RealWorld> for Under<'a> {
    ghost reads = { λ _. None };

    ghost fault_count = { λ s. s.faults };

    fn find(&mut self, name: &str) -> Result<Option<FileRef>, Failed> {
        if name != self.name {
            return Ok(None);
        }
        Ok(Some(FileRef {
            number: 0,
            len: self.bytes.len() as u64,
        }))
    }

    fn read_at(&mut self, file: FileRef, at: u64, into: &mut [u8]) -> Result<(), Failed> {
        let start = at as usize;
        match self.bytes.get(start..start + into.len()) {
            Some(part) if file.number == 0 => {
                into.copy_from_slice(part);
                Ok(())
            }
            _ => {
                self.faults = self.faults.saturating_add(1);
                Err(Failed)
            }
        }
    }

    fn faults(&self) -> u64 {
        self.faults
    }
}
