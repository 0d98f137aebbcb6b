//! A sink in memory, which grows with what is written.
ghost use Rattle.std.specs.Prelude.{◌≡◌, ◌≤◌, ◌++◌, [], ℕ, length, take, Some, OnOk, OnErr};
ghost use Rattle.outside.specs.Cause.{HasCause, Rose};
ghost use Rattle.outside.specs.Failing.{counted};
ghost use Rattle.outside.specs.Told.{Extended};

use outside::{Bytes, Failed, Sink};
use std::alloc::Global;

/// The bytes that were written, in memory that grows with them. A write fails where memory is refused, and writes nothing then.
#[derive(Drop)]
pub(crate) struct BytesSink {
    bytes: Vec<u8>,
    faults: u64,
}

impl BytesSink {
    /// Nothing is written, and no memory taken.
    pub(crate) fn new(alloc: Global) -> BytesSink
        ensures { result.bytes.items ≡ [] }
    {
        BytesSink {
            bytes: Vec::new(alloc),
            faults: 0,
        }
    }

    /// What was written.
    pub(crate) fn into_bytes(self) -> Bytes
        ensures { result ≡ self.bytes.items }
    {
        Bytes::new(self.bytes)
    }
}

impl Sink for BytesSink {
    ghost content = { λ s. Some s.bytes.items };

    ghost fault_count = { λ s. s.faults };

    fn write(&mut self, bytes: &[u8]) -> Result<(), Failed> {
        match self.bytes.extend_from_slice(bytes) {
            Ok(()) => Ok(()),
            Err(_) => {
                self.faults = self.faults.saturating_add(1);
                Err(Failed)
            }
        }
    }
}
