//! A number of bytes that is known, taken whole.
ghost use Rattle.std.specs.Prelude.{length};
ghost use Rattle.outside.specs.Lending.{skipped};
ghost use Rattle.outside.specs.Reading.{Reads, byte, exactly, placed};

use crate::{Feed, RunFault};

/// Takes just as many bytes as `into` has room for, in one take where the feed gives them at once.
///
/// Answers `StreamEnds` where the stream has fewer, and `Read` only where the feed failed in this call. After
/// either, some of the bytes may have been taken, and what `into` holds isn't promised.
pub fn take_exactly<F: Feed>(feed: &mut F, stream: u32, into: &mut [u8]) -> Result<(), RunFault>
    ensures { Reads F.rest F.fed F.fault_count stream (exactly (length into.old)) feed.old feed.new (placed into.new result) }
{
    if into.is_empty() {
        return Ok(());
    }
    let len = feed.take(stream, into)?;
    if len == 0 {
        return Err(RunFault::StreamEnds);
    }
    let (_, rest) = into.split_at_mut(len);
    take_exactly(feed, stream, rest)
}

/// Takes one byte, as `take_exactly` does.
pub fn take_byte<F: Feed>(feed: &mut F, stream: u32) -> Result<u8, RunFault>
    ensures { Reads F.rest F.fed F.fault_count stream byte feed.old feed.new result }
{
    let mut into = [0; 1];
    take_exactly(feed, stream, &mut into)?;
    Ok(into[0])
}

/// Passes over just so many bytes, in one skip where the feed has them at hand.
///
/// Answers `StreamEnds` where the stream has fewer, and `Read` only where the feed failed in this call. After
/// either, some of the bytes may have been taken.
pub fn skip_exactly<F: Feed>(feed: &mut F, stream: u32, count: usize) -> Result<(), RunFault>
    ensures { Reads F.rest F.fed F.fault_count stream (skipped count) feed.old feed.new (placed tt result) }
{
    if count == 0 {
        return Ok(());
    }
    let len = feed.skip(stream, count)?;
    if len == 0 {
        return Err(RunFault::StreamEnds);
    }
    skip_exactly(feed, stream, count - len)
}
