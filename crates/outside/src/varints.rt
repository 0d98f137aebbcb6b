//! Varints, taken in pieces.
ghost use Rattle.std.specs.Prelude.{◌≡◌, ◌≤◌, length};
ghost use Rattle.outside.specs.Reading.{Reads, placed};
ghost use Rattle.outside.specs.Varint.{varint, varints, open_varints};
ghost use Rattle.outside.specs.Pieces.{AbsorbsTo};

use crate::begun::Begun;
use crate::{Feed, RunFault};

const PIECE: usize = 128;

/// Reads a piece into the front of `out`, and answers how many numbers ended in it.
fn absorb(piece: &[u8], begun: &mut Begun, out: &mut [u64]) -> Result<usize, RunFault>
    requires { length piece.now ≤ length out.old }
    ensures { AbsorbsTo begun.old.groups begun.old.count piece.now out.new begun.new.groups begun.new.count result }
{
    let mut ended = 0;
    for byte in piece {
        if let Some(number) = begun.push(*byte)? {
            out[ended] = number;
            ended += 1;
        }
    }
    Ok(ended)
}

/// Takes just as many varints as `out` has room for.
///
/// Each number has at least one byte, so each take is of one byte for each number that is still open.
/// Answers the first fault in the order of the bytes: `StreamEnds` where the stream ends in or before a
/// number, `LongVarint` where ten bytes all have their top bit set; and `Read` only where the feed failed
/// in this call. After a fault what `out` holds isn't promised.
pub fn take_varints<F: Feed>(feed: &mut F, stream: u32, out: &mut [u64]) -> Result<(), RunFault>
    ensures { Reads F.rest F.fed F.fault_count stream (varints (length out.old)) feed.old feed.new (placed out.new result) }
{
    take_open(feed, stream, Begun::new(), out)
}

/// Takes one varint, as `take_varints` does.
pub fn take_varint<F: Feed>(feed: &mut F, stream: u32) -> Result<u64, RunFault>
    ensures { Reads F.rest F.fed F.fault_count stream varint feed.old feed.new result }
{
    let mut number = [0; 1];
    take_varints(feed, stream, &mut number)?;
    Ok(number[0])
}

fn take_open<F: Feed>(
    feed: &mut F,
    stream: u32,
    begun: Begun,
    out: &mut [u64],
) -> Result<(), RunFault>
    ensures { Reads F.rest F.fed F.fault_count stream (open_varints begun.groups begun.count (length out.old)) feed.old feed.new
        (placed out.new result) }
{
    if out.is_empty() {
        return Ok(());
    }
    let mut buffer = [0; PIECE];
    let room = out.len().min(PIECE);
    let (piece, _) = buffer.split_at_mut(room);
    let len = feed.take(stream, piece)?;
    if len == 0 {
        return Err(RunFault::StreamEnds);
    }
    let mut begun = begun;
    let ended = absorb(&piece[..len], &mut begun, out)?;
    let (_, rest) = out.split_at_mut(ended);
    take_open(feed, stream, begun, rest)
}
