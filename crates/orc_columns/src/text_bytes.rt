//! The bytes of texts.
ghost use Rattle.std.specs.Prelude.{◌≡◌, length, OnOk, IfErr};
ghost use Rattle.outside.specs.Reading.{exactly, placed};
ghost use Rattle.orc_columns.specs.declared.plan.ColumnPlan.{ColumnPlan};
ghost use Rattle.orc_columns.specs.Batches.{HoldsNoRead};
ghost use Rattle.orc_columns.specs.Draws.{StreamsDiffer, Draws};
ghost use Rattle.orc_columns.specs.Takes.{BodyTaken, BodyShort, DictionaryTaken, DictionaryShort, ReadsIn, take_fault};
ghost use Rattle.orc_columns.specs.Turns.{alone};

use crate::fault::ColumnFault;
use outside::{Feed, RunFault, take_exactly};

/// Takes the bytes of some texts in place of those of `bytes`, in one take where the feed gives them at once.
///
/// Answers `LengthsPastData` where the stream has fewer, and `NoMemory` where memory for them was refused.
pub(crate) fn read_bytes<F: Feed>(
    feed: &mut F,
    stream: Option<u32>,
    bytes: &mut Vec<u8>,
    count: u64,
) -> Result<(), ColumnFault>
    ensures len { OnOk result (length bytes.new.items ≡ count) }
    ensures no_read { IfErr result HoldsNoRead }
    ensures body { (plan : ColumnPlan) → StreamsDiffer plan → stream ≡ plan.body →
        Draws F.rest F.fed F.fault_count plan (alone plan.body) feed.old feed.new
        (BodyTaken count) (BodyShort count) (placed bytes.new.items result) }
    ensures dictionary { (plan : ColumnPlan) → StreamsDiffer plan → stream ≡ plan.dictionary →
        Draws F.rest F.fed F.fault_count plan (alone plan.dictionary) feed.old feed.new
        (DictionaryTaken count) (DictionaryShort count) (placed bytes.new.items result) }
{
    bytes.resize(count as usize, 0)?;
    take_bytes(feed, stream, bytes)
}

/// Takes as many bytes as `into` has room for.
fn take_bytes<F: Feed>(
    feed: &mut F,
    stream: Option<u32>,
    into: &mut [u8],
) -> Result<(), ColumnFault>
    ensures no_read { IfErr result HoldsNoRead }
    ensures body { (plan : ColumnPlan) → StreamsDiffer plan → stream ≡ plan.body →
        Draws F.rest F.fed F.fault_count plan (alone plan.body) feed.old feed.new
        (BodyTaken (length into.old)) (BodyShort (length into.old)) (placed into.new result) }
    ensures dictionary { (plan : ColumnPlan) → StreamsDiffer plan → stream ≡ plan.dictionary →
        Draws F.rest F.fed F.fault_count plan (alone plan.dictionary) feed.old feed.new
        (DictionaryTaken (length into.old)) (DictionaryShort (length into.old)) (placed into.new result) }
{
    match take_some(feed, stream, into) {
        Ok(()) => Ok(()),
        Err(fault) => Err(of_take(fault)),
    }
}

/// Takes as many bytes as `into` has room for, of a stream that may be lacking.
fn take_some<F: Feed>(feed: &mut F, stream: Option<u32>, into: &mut [u8]) -> Result<(), RunFault>
    ensures { ReadsIn F.rest F.fed F.fault_count stream (exactly (length into.old)) feed.old feed.new (placed into.new result) }
{
    if let Some(stream) = stream {
        return take_exactly(feed, stream, into);
    }
    if into.is_empty() {
        return Ok(());
    }
    Err(RunFault::StreamEnds)
}

/// The fault of a column whose texts' bytes can't be taken.
fn of_take(fault: RunFault) -> ColumnFault
    ensures { result ≡ take_fault fault }
{
    match fault {
        RunFault::Read(failed) => ColumnFault::Read(failed),
        _ => ColumnFault::LengthsPastData,
    }
}
