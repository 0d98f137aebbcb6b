//! The decoder of runs of bytes.
ghost use Rattle.std.specs.Prelude.{◌≡◌, [], length, None, Some, Ok, Err};
ghost use Rattle.std.specs.Result.{result_err};
ghost use Rattle.outside.specs.declared.run_fault.RunFault.{RunFault};
ghost use Rattle.outside.specs.Filling.{Fills};
ghost use Rattle.outside.specs.Reading.{placed};
ghost use Rattle.orc_rle.specs.ByteRun.{ByteRun, byte_run};

use crate::byte_run::read_byte_run;
use crate::held_bytes::HeldBytes;
use outside::{Feed, RunFault};
use std::marker::Model;

/// A decoder of the bytes of one stream.
///
/// It reads whole runs, one at a time, and only when it needs a byte that it doesn't hold. It is seen as its
/// stream, the bytes that it holds, and the fault that it has answered, if any.
#[derive(Drop)]
pub struct ByteRuns {
    stream: u32,
    held: HeldBytes,
    fault: Option<RunFault>,
}

impl Model for ByteRuns {
    ghost use Rattle.std.specs.Prelude.{ℕ};
    ghost use Rattle.orc_rle.specs.Decoder.{Decoder};

    ghost Value = { Decoder ℕ };

    ghost view = { λ d. record { stream = d.stream; held = d.held; fault = d.fault } };
}

impl ByteRuns {
    /// A decoder of a stream from its start.
    pub fn new(stream: u32) -> ByteRuns
        ensures { result ≡ record { stream = stream; held = []; fault = None } }
    {
        ByteRuns {
            stream,
            held: HeldBytes::new(),
            fault: None,
        }
    }

    /// Gives the next `out.len()` bytes.
    ///
    /// Bytes of the stream behind the last run that is needed aren't looked at. Answers `StreamEnds` exactly
    /// where the stream doesn't spell so many bytes, and `Read` only where the feed failed in this call. After a
    /// fault each later call answers the same and takes nothing, and what `out` holds isn't promised.
    ///
    /// Source: Apache ORC specification v1, "Byte Run Length Encoding".
    pub fn fill<F: Feed>(&mut self, feed: &mut F, out: &mut [u8]) -> Result<(), RunFault>
        // It stays a decoder of its stream.
        ensures stream { self.new.stream ≡ self.old.stream }

        // A fault is kept, and answered again.
        ensures keeps { self.new.fault ≡ result_err result }
        ensures kept { (fault : RunFault) → self.old.fault ≡ Some fault → (result ≡ Err fault) × (feed.new ≡ feed.old) }

        // Before that the bytes are those that the runs of the stream spell, or it breaks before them.
        ensures fills { self.old.fault ≡ None →
            Fills F.rest F.fed F.fault_count ByteRun byte_run self.old.stream
            feed.old feed.new self.old.held self.new.held (length out.old) (placed out.new result) }
    {
        if let Some(fault) = self.fault {
            return Err(fault);
        }
        let filled = fill_bytes(feed, self.stream, &mut self.held, out);
        self.fault = filled.err();
        filled
    }
}

fn fill_bytes<F: Feed>(
    feed: &mut F,
    stream: u32,
    held: &mut HeldBytes,
    out: &mut [u8],
) -> Result<(), RunFault>
    ensures { Fills F.rest F.fed F.fault_count ByteRun byte_run stream
        feed.old feed.new held.old held.new (length out.old) (placed out.new result) }
{
    let mut given = held.give(out);
    while given < out.len() {
        read_byte_run(feed, stream, held)?;
        let (_, open) = out.split_at_mut(given);
        given += held.give(open);
    }
    Ok(())
}
