//! A store whose bytes tell their offsets apart.
ghost use Rattle.std.specs.Prelude.{◌≡◌, ◌%◌, None};

use outside::{Failed, FileRef, RealWorld, Store};

/// A store of one file without an end, whose byte i is i mod 251. It counts its reads, fails at one of them, and finds no file by name.
#[derive(Drop)]
pub struct Pattern {
    /// The reads that were asked for.
    pub reads: u64,
    /// The read that fails, counted from 1, or 0.
    pub failing: u64,
    /// How many reads have failed.
    pub faults: u64,
}

impl Pattern {
    /// The store, which wasn't read yet, and fails at the read of that number, counted from 1, or, of 0, at none.
    pub fn new(failing: u64) -> Pattern
        ensures { result ≡ record { reads = 0; failing = failing; faults = 0 } }
    {
        Pattern {
            reads: 0,
            failing,
            faults: 0,
        }
    }
}

/// The file's byte at an offset.
pub fn byte_at(at: u64) -> u8
    ensures { result ≡ at % 251 }
{
    (at % 251) as u8
}

impl Store<RealWorld> for Pattern {
    ghost reads = { λ _. None };

    ghost fault_count = { λ s. s.faults };

    fn find(&mut self, _name: &str) -> Result<Option<FileRef>, Failed> {
        Ok(None)
    }

    fn read_at(&mut self, _file: FileRef, at: u64, into: &mut [u8]) -> Result<(), Failed> {
        self.reads = self.reads.wrapping_add(1);
        if self.reads == self.failing {
            self.faults = self.faults.saturating_add(1);
            return Err(Failed);
        }
        for i in 0..into.len() {
            into[i] = byte_at(at + i as u64);
        }
        Ok(())
    }

    fn faults(&self) -> u64 {
        self.faults
    }
}
