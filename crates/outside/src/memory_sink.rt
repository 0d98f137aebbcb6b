ghost use Rattle.std.specs.Prelude.{◌≡◌, ◌≤◌, ◌↔◌, ℕ, [], length, take, Some, IfOk, OnOk, OnErr, IsErr, IsTrue, option_copied, if◌then◌else◌};
ghost use Rattle.outside.specs.Cause.{HasCause};
ghost use Rattle.outside.specs.Told.{Extended};
ghost use Rattle.outside.specs.Log.{told_within};
ghost use Rattle.outside.specs.Failing.{fails_next, after_next};

use crate::failing::Failing;
use crate::{Failed, NoMemory, Sink, SureSink};
use std::alloc::Global;
use std::marker::Model;

/// A sink that keeps what is written in memory, and fails at the writes that it was told to.
///
/// Writes are counted from 1; a write that fails writes nothing. Contracts see the content, or none once
/// it isn't told any more, the room for it in bytes, and its failing writes.
#[derive(Drop)]
pub struct MemorySink {
    sink: SureSink,
    failing: Failing,
}

impl Model for MemorySink {
    ghost use Rattle.outside.specs.Memory.{SinkOf};

    ghost Value = { SinkOf };

    ghost view = { λ s. record { content = s.sink.items; room = s.sink.room; failing = s.failing } };
}

impl MemorySink {
    /// An empty sink with room for so many bytes, and the numbers of the writes that are to fail; `NoMemory`
    /// where memory for that room is refused.
    pub fn new(alloc: Global, failing: Vec<u64>, room: u32) -> Result<MemorySink, NoMemory>
        ensures { IfOk result (λ sink. sink ≡ record {
          content = Some [];
          room = room;
          failing = record { numbers = failing.items; calls = 0; faults = 0 };
        }) }
    {
        Ok(MemorySink {
            sink: SureSink::new(alloc, room)?,
            failing: Failing::new(failing),
        })
    }

    /// The content that it tells.
    pub fn written(&self) -> Option<&[u8]>
        ensures { option_copied result ≡ self.now.content }
    {
        self.sink.written()
    }
}

impl Sink for MemorySink {
    ghost content = { λ s. s.content };

    ghost fault_count = { λ s. s.failing.faults };

    fn write(&mut self, bytes: &[u8]) -> Result<(), Failed>
        ensures written { OnOk result (Extended self.old.content self.new.content bytes.now) }
        ensures front { OnErr result ((n : ℕ) × (n ≤ length bytes.now)
            × Extended self.old.content self.new.content (take n bytes.now)) }
        ensures cause { HasCause self.old.failing.faults self.new.failing.faults result }
        ensures fails { IsErr result ↔ IsTrue (fails_next self.old.failing) }
        ensures after { self.new ≡ record self.old {
          content = (if fails_next self.old.failing then self.old.content
              else told_within self.old.room self.old.content bytes.now);
          failing = after_next self.old.failing;
        } }
    {
        self.failing.call()?;
        self.sink.write(bytes)
    }
}
