//! The flags and the bits of a whole stream.
ghost use Rattle.std.specs.Prelude.{◌≡◌, length, None};
ghost use Rattle.orc_rle.specs.BitRun.{BitRun, bit_run};
ghost use Rattle.row_flags.specs.Flags.{ReadsFlags, ReadsBits};

use crate::batch::BATCH;
use crate::bit_stream::BitStream;
use crate::present::Present;
use orc_values::count_present;
use outside::{Feed, RunFault};

/// Reads the flags of the next `rows` rows, and answers how many are set.
///
/// Answers faults as `Present::fill` does.
pub fn count_flags<F: Feed>(feed: &mut F, present: &mut Present, rows: u64) -> Result<u64, RunFault>
    requires whole { present.old.fault ≡ None }
    ensures { ReadsFlags F.rest F.fed F.fault_count present.old present.new feed.old feed.new rows result }
{
    let mut batch = [false; BATCH];
    let mut set = 0;
    let mut given = 0;
    while given < rows {
        let asked = (rows - given).min(BATCH as u64);
        let (flags, _) = batch.split_at_mut(asked as usize);
        present.fill(feed, flags)?;
        set += count_present(flags) as u64;
        given += asked;
        if present.is_empty() {
            return Ok(set + (rows - given));
        }
    }
    Ok(set)
}

/// Reads the next `count` bits.
///
/// Answers as `BitStream::fill` does.
pub fn skip_bits<F: Feed>(feed: &mut F, bits: &mut BitStream, count: u64) -> Result<(), RunFault>
    requires whole { bits.old.fault ≡ None }
    ensures { ReadsBits F.rest F.fed F.fault_count bits.old.stream feed.old feed.new bits.old.held bits.new.held count result }
{
    let mut batch = [false; BATCH];
    let mut given = 0;
    while given < count {
        let asked = (count - given).min(BATCH as u64);
        let (out, _) = batch.split_at_mut(asked as usize);
        bits.fill(feed, out)?;
        given += asked;
    }
    Ok(())
}
