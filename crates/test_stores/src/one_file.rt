//! A store of one file in memory, which notes its reads.
ghost use Rattle.std.specs.Prelude.{◌≡◌, None, [], length};
ghost use Rattle.outside.specs.Cause.{last_count};

use outside::{Failed, FileRef, RealWorld, Store};
use std::alloc::Global;

/// The store of the file `t.orc`, which has number 0. It notes its reads, and fails where it has made so many.
///
/// Its count of faults stands at its end from the beginning on, so each call may fail.
#[derive(Drop)]
pub struct OneFile<'a> {
    /// The file's bytes.
    pub bytes: &'a [u8],
    /// The offset and the length of each read that was made, in bytes.
    pub reads: Vec<(u64, usize)>,
    /// How many reads are made before one fails.
    pub most: usize,
}

impl<'a> OneFile<'a> {
    /// The store of a file of these bytes that wasn't read yet, and of which so many reads are made. It takes no memory.
    pub fn new(alloc: Global, bytes: &'a [u8], most: usize) -> OneFile<'a>
        ensures bytes { result.bytes.now ≡ bytes.now }
        ensures unread { result.reads.items ≡ [] }
        ensures most { result.most ≡ most }
    {
        OneFile {
            bytes,
            reads: Vec::new(alloc),
            most,
        }
    }

    /// The number and the length of the file, in bytes.
    pub fn file(&self) -> FileRef
        ensures number { result.number ≡ 0 }
        ensures len { result.len ≡ length self.now.bytes.now }
    {
        FileRef {
            number: 0,
            len: self.bytes.len() as u64,
        }
    }
}

impl<'a> Store<RealWorld> for OneFile<'a> {
    ghost reads = { λ _. None };

    ghost fault_count = { λ _. last_count };

    fn find(&mut self, name: &str) -> Result<Option<FileRef>, Failed> {
        if name != "t.orc" {
            return Ok(None);
        }
        Ok(Some(self.file()))
    }

    fn read_at(&mut self, _file: FileRef, at: u64, into: &mut [u8]) -> Result<(), Failed> {
        if self.reads.len() == self.most {
            return Err(Failed);
        }
        self.reads.push((at, into.len())).map_err(|_| Failed)?;
        let start = at as usize;
        let end = start.checked_add(into.len()).ok_or(Failed)?;
        into.copy_from_slice(self.bytes.get(start..end).ok_or(Failed)?);
        Ok(())
    }

    fn faults(&self) -> u64 {
        u64::MAX
    }
}
