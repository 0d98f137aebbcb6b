ghost use Rattle.std.specs.Prelude.{◌≡◌, ◌≤◌, ℕ, [], length, take, Some, IfOk, IsOk, OnOk, OnErr, option_copied};
ghost use Rattle.outside.specs.Cause.{HasCause};
ghost use Rattle.outside.specs.Told.{Extended};
ghost use Rattle.outside.specs.Log.{told_within};

use crate::log::Log;
use crate::{Failed, NoMemory, Sink};
use std::alloc::Global;
use std::marker::Model;

/// A sink that keeps what is written in memory and never fails.
///
/// Contracts see the content, or none once it isn't told any more, and the room for it in bytes. Past
/// that room it still answers, and tells nothing from then on.
#[derive(Drop)]
pub struct SureSink {
    log: Log<u8>,
}

impl Model for SureSink {
    ghost use Rattle.std.specs.Prelude.{ℕ};
    ghost use Rattle.outside.specs.Log.{LogOf};

    ghost Value = { LogOf ℕ };

    ghost view = { λ s. s.log };
}

impl SureSink {
    /// An empty sink with room for so many bytes; `NoMemory` where memory for that room is refused.
    pub fn new(alloc: Global, room: u32) -> Result<SureSink, NoMemory>
        ensures { IfOk result (λ sink. sink ≡ record { items = Some []; room = room }) }
    {
        Ok(SureSink {
            log: Log::new(alloc, room as usize)?,
        })
    }

    /// The content that it tells.
    pub fn written(&self) -> Option<&[u8]>
        ensures { option_copied result ≡ self.now.items }
    {
        self.log.items()
    }
}

impl Sink for SureSink {
    ghost content = { λ s. s.items };

    ghost fault_count = { λ _. 0 };

    fn write(&mut self, bytes: &[u8]) -> Result<(), Failed>
        ensures written { OnOk result (Extended self.old.items self.new.items bytes.now) }
        ensures front { OnErr result ((n : ℕ) × (n ≤ length bytes.now) × Extended self.old.items self.new.items (take n bytes.now)) }
        ensures cause { HasCause 0 0 result }
        ensures sure { IsOk result }
        ensures after { self.new ≡ record self.old { items = told_within self.old.room self.old.items bytes.now } }
    {
        self.log.append(bytes);
        Ok(())
    }
}
