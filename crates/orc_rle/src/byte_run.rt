//! One run of bytes, read from a feed.
ghost use Rattle.std.specs.Prelude.{◌≡◌, ◌≤◌, ◌<◌, true, false, length, Ok, OnOk};
ghost use Rattle.outside.specs.Reading.{Reads, byte, placed};
ghost use Rattle.orc_rle.specs.ByteRun.{byte_run, bytes_after};
ghost use Rattle.orc_rle.specs.EmptyStream.{unless_empty, found};

use crate::held_bytes::HeldBytes;
use outside::{Feed, RunFault, take_byte};

/// Reads a run, and holds its bytes in the place of those that were held.
///
/// Answers `StreamEnds` where the stream ends before the run does; after a fault what is held isn't promised.
pub fn read_byte_run<F: Feed>(
    feed: &mut F,
    stream: u32,
    held: &mut HeldBytes,
) -> Result<(), RunFault>
    ensures reads { Reads F.rest F.fed F.fault_count stream byte_run feed.old feed.new (placed held.new result) }
    ensures some { OnOk result (0 < length held.new) }
{
    let control = take_byte(feed, stream)?;
    read_after(feed, stream, control, held)
}

/// Reads a run as `read_byte_run` does, unless no byte of the stream is left: then it answers false, and what
/// is held stays.
pub fn read_byte_run_unless_empty<F: Feed>(
    feed: &mut F,
    stream: u32,
    held: &mut HeldBytes,
) -> Result<bool, RunFault>
    ensures reads { Reads F.rest F.fed F.fault_count stream (unless_empty byte_run) feed.old feed.new (found held.new result) }
    ensures some { result ≡ Ok true → 0 < length held.new }
    ensures same { result ≡ Ok false → held.new ≡ held.old }
{
    let Some(control) = take_next(feed, stream)? else {
        return Ok(false);
    };
    read_after(feed, stream, control, held)?;
    Ok(true)
}

/// Reads what follows the control of a run.
fn read_after<F: Feed>(
    feed: &mut F,
    stream: u32,
    control: u8,
    held: &mut HeldBytes,
) -> Result<(), RunFault>
    ensures reads { Reads F.rest F.fed F.fault_count stream (bytes_after control) feed.old feed.new (placed held.new result) }
    ensures some { OnOk result (0 < length held.new) }
{
    let control = usize::from(control);
    if control < 128 {
        let value = take_byte(feed, stream)?;
        held.repeat(control + 3, value);
        Ok(())
    } else {
        held.take(feed, stream, 256 - control)
    }
}

/// Takes the next byte of a stream, if one is left.
fn take_next<F: Feed>(feed: &mut F, stream: u32) -> Result<Option<u8>, RunFault>
    ensures { Reads F.rest F.fed F.fault_count stream (unless_empty byte) feed.old feed.new result }
{
    let mut into = [0; 1];
    let len = feed.take(stream, &mut into)?;
    if len == 0 {
        Ok(None)
    } else {
        Ok(Some(into[0]))
    }
}
