//! The decoder of runs of bits.
ghost use Rattle.std.specs.Prelude.{◌≡◌, ◌<◌, ◌≤◌, [], length, None, Some, Ok, Err};
ghost use Rattle.std.specs.Result.{result_err};
ghost use Rattle.outside.specs.declared.run_fault.RunFault.{RunFault};
ghost use Rattle.outside.specs.Filling.{Fills};
ghost use Rattle.outside.specs.Reading.{placed};
ghost use Rattle.orc_rle.specs.BitRun.{BitRun, bit_run};
ghost use Rattle.orc_rle.specs.EmptyStream.{FillsUnlessEmpty};

use crate::held_bits::HeldBits;
use outside::{Feed, RunFault};
use std::marker::Model;

/// A decoder of the bits of one stream.
///
/// The stream has runs of bytes, and each byte gives eight bits, the highest first. It reads whole runs, one
/// at a time, and only when it needs a bit that it doesn't hold. It is seen as its stream, the bits that it
/// holds, and the fault that it has answered, if any.
#[derive(Drop)]
pub struct Bits {
    stream: u32,
    held: HeldBits,
    fault: Option<RunFault>,
}

impl Model for Bits {
    ghost use Rattle.std.specs.Prelude.{Bool};
    ghost use Rattle.orc_rle.specs.Decoder.{Decoder};

    ghost Value = { Decoder Bool };

    ghost view = { λ d. record { stream = d.stream; held = d.held; fault = d.fault } };
}

impl Bits {
    /// A decoder of a stream from its start.
    pub fn new(stream: u32) -> Bits
        ensures { result ≡ record { stream = stream; held = []; fault = None } }
    {
        Bits {
            stream,
            held: HeldBits::new(),
            fault: None,
        }
    }

    /// Gives the next `out.len()` bits.
    ///
    /// For n bits in all, over this call and those before, it uses the runs of the first n / 8 bytes, rounded
    /// up; bytes of the stream behind these runs aren't looked at. Answers `StreamEnds` exactly where the stream doesn't
    /// spell so many bits, and `Read` only where the feed failed in this call. After a fault each later call
    /// answers the same and takes nothing, and what `out` holds isn't promised.
    ///
    /// Source: Apache ORC specification v1, "Boolean Run Length Encoding".
    pub fn fill<F: Feed>(&mut self, feed: &mut F, out: &mut [bool]) -> Result<(), RunFault>
        // It stays a decoder of its stream.
        ensures stream { self.new.stream ≡ self.old.stream }

        // A fault is kept, and answered again.
        ensures keeps { self.new.fault ≡ result_err result }
        ensures kept { (fault : RunFault) → self.old.fault ≡ Some fault → (result ≡ Err fault) × (feed.new ≡ feed.old) }

        // Before that the bits are those that the runs of the stream spell, or it breaks before them.
        ensures fills { self.old.fault ≡ None →
            Fills F.rest F.fed F.fault_count BitRun bit_run self.old.stream
            feed.old feed.new self.old.held self.new.held (length out.old) (placed out.new result) }
    {
        if let Some(fault) = self.fault {
            return Err(fault);
        }
        let filled = fill_bits(feed, self.stream, &mut self.held, out);
        self.fault = filled.err();
        filled
    }

    /// Gives the next `out.len()` bits as `fill` does, and answers true, unless a byte of the stream is needed
    /// and none is left.
    ///
    /// Then it answers false: no bit was left, neither in the decoder, which stays as it was, nor in the stream,
    /// and what `out` holds isn't promised. At a decoder that has given nothing that says that the stream is
    /// empty. Faults come as in `fill`, but not `StreamEnds` at such a stream.
    pub fn fill_unless_empty<F: Feed>(
        &mut self,
        feed: &mut F,
        out: &mut [bool],
    ) -> Result<bool, RunFault>
        // It stays a decoder of its stream.
        ensures stream { self.new.stream ≡ self.old.stream }

        // A fault is kept, and answered again.
        ensures keeps { self.new.fault ≡ result_err result }
        ensures kept { (fault : RunFault) → self.old.fault ≡ Some fault → (result ≡ Err fault) × (feed.new ≡ feed.old) }

        // Before that the bits are those that the runs of the stream spell, or it breaks, or there is none.
        ensures fills { self.old.fault ≡ None →
            FillsUnlessEmpty F.rest F.fed F.fault_count BitRun bit_run self.old.stream
            feed.old feed.new self.old.held self.new.held (length out.old) out.new result }
    {
        if let Some(fault) = self.fault {
            return Err(fault);
        }
        let filled = fill_bits_unless_empty(feed, self.stream, &mut self.held, out);
        self.fault = filled.err();
        filled
    }
}

fn fill_bits_unless_empty<F: Feed>(
    feed: &mut F,
    stream: u32,
    held: &mut HeldBits,
    out: &mut [bool],
) -> Result<bool, RunFault>
    ensures { FillsUnlessEmpty F.rest F.fed F.fault_count BitRun bit_run stream
        feed.old feed.new held.old held.new (length out.old) out.new result }
{
    if out.is_empty() || !held.is_empty() {
        fill_bits(feed, stream, held, out)?;
        return Ok(true);
    }
    fill_first(feed, stream, held, out)
}

/// Reads a run, if any byte is left, gives at least one bit of it, and fills what is left of `out`.
fn fill_first<F: Feed>(
    feed: &mut F,
    stream: u32,
    held: &mut HeldBits,
    out: &mut [bool],
) -> Result<bool, RunFault>
    requires none { held.old ≡ [] }
    requires asked { 0 < length out.old }
    ensures { FillsUnlessEmpty F.rest F.fed F.fault_count BitRun bit_run stream
        feed.old feed.new held.old held.new (length out.old) out.new result }
{
    if !held.read_run_unless_empty(feed, stream)? {
        return Ok(false);
    }
    let given = held.give(out);
    let (_, open) = out.split_at_mut(given);
    fill_bits(feed, stream, held, open)?;
    Ok(true)
}

fn fill_bits<F: Feed>(
    feed: &mut F,
    stream: u32,
    held: &mut HeldBits,
    out: &mut [bool],
) -> Result<(), RunFault>
    ensures { Fills F.rest F.fed F.fault_count BitRun bit_run stream
        feed.old feed.new held.old held.new (length out.old) (placed out.new result) }
{
    let mut given = held.give(out);
    while given < out.len() {
        held.read_run(feed, stream)?;
        let (_, open) = out.split_at_mut(given);
        given += held.give(open);
    }
    Ok(())
}
