//! Judging a column of a stripe, stream by stream, without its values.
ghost use Rattle.std.specs.Prelude.{◌≡◌, ◌∷◌, Some, IfErr};
ghost use Rattle.orc_columns.specs.Column.{Streams, LengthsFail, ValuesFail, Fails};
ghost use Rattle.orc_columns.specs.Draws.{StreamsDiffer, Tells, Draws};
ghost use Rattle.orc_columns.specs.FirstFault.{found_by, IsJudged, Judges, Sized, StandingRows, NoStandingRows};
ghost use Rattle.orc_columns.specs.FirstFault.{JudgedLengths, JudgedValues, JudgedColumn};
ghost use Rattle.orc_columns.specs.Spelling.{spelling_of as spelling_by};
ghost use Rattle.orc_columns.specs.Turns.{alone, judged_values};
ghost use Rattle.orc_columns.specs.declared.spelling.Spelling.TheVariants.{Bits, Integers as OfIntegers, Texts, Dictionary};

use crate::column_rooms::ColumnRooms;
use crate::fault::{ColumnFault, StreamName, of_run};
use crate::integers::Integers;
use crate::numbers::read_numbers;
use crate::plan::ColumnPlan;
use crate::spelling::{Spelling, Version, spelling_of};
use orc_integers::RunRoom;
use outside::Feed;
use row_flags::{BitStream, Present, count_flags, skip_bits};

/// A length with its 64th bit set is at least this, as an unsigned number.
const NEGATIVE: u128 = 1 << 63;

/// The first condition that refuses a column of so many rows, or None where it has values in all of them.
///
/// The conditions are judged one after the other, each over all rows: that is the order of `ColumnFault`. The
/// feed holds the column's streams from their first byte on; it takes from them alone, first from PRESENT for all rows,
/// then from LENGTH, where the spelling has lengths, then from DATA, where its bytes are runs: no text is read. It ends once
/// the streams' bytes have, however many rows are asked for. An `Err` is `ColumnFault::Read`, only where the feed failed in
/// this call: no memory is taken but the rooms that it is given.
///
/// Source: Apache ORC specification v1, "Column Encodings"; the order of the conditions is this project's own.
pub fn first_fault<F: Feed>(
    plan: ColumnPlan,
    feed: &mut F,
    rows: u64,
    rooms: ColumnRooms,
) -> Result<Option<ColumnFault>, ColumnFault>
    requires differ { StreamsDiffer plan }
    requires lens { (s : Streams) → Tells F.rest feed.old plan s → Sized plan s }
    ensures { Judges F.rest F.fed F.fault_count plan rows feed.old feed.new result }
{
    let Some(spelling) = spelling_of(plan.kind, plan.encoding) else {
        return Ok(Some(ColumnFault::BadEncoding));
    };
    match judge(plan, spelling, feed, rows, rooms) {
        Ok(()) => Ok(None),
        Err(fault) => found(fault),
    }
}

/// What was found by a fault: it is the column's, unless the feed failed.
fn found(fault: ColumnFault) -> Result<Option<ColumnFault>, ColumnFault>
    ensures { result ≡ found_by fault }
{
    match fault {
        ColumnFault::Read(_) => Err(fault),
        _ => Ok(Some(fault)),
    }
}

/// Judges a column whose spelling is known.
fn judge<F: Feed>(
    plan: ColumnPlan,
    spelling: Spelling,
    feed: &mut F,
    rows: u64,
    rooms: ColumnRooms,
) -> Result<(), ColumnFault>
    requires differ { StreamsDiffer plan }
    requires lens { (s : Streams) → Tells F.rest feed.old plan s → Sized plan s }
    requires spelled { spelling_by plan.kind plan.encoding ≡ Some spelling }
    ensures judged { IfErr result IsJudged }
    ensures draws { Draws F.rest F.fed F.fault_count plan (plan.present ∷ judged_values plan spelling) feed.old feed.new
        (λ before after _. JudgedColumn plan rows before) (λ before fault. Fails plan before rows fault) result }
{
    let standing = standing_rows(plan, feed, rows)?;
    judge_values(plan, spelling, feed, standing, rooms)
}

/// How many rows have a value.
fn standing_rows<F: Feed>(plan: ColumnPlan, feed: &mut F, rows: u64) -> Result<u64, ColumnFault>
    requires differ { StreamsDiffer plan }
    ensures judged { IfErr result IsJudged }
    ensures draws { Draws F.rest F.fed F.fault_count plan (alone plan.present) feed.old feed.new
        (StandingRows rows) (NoStandingRows rows) result }
{
    let mut present = Present::new(plan.present);
    match count_flags(feed, &mut present, rows) {
        Ok(standing) => Ok(standing),
        Err(fault) => Err(of_run(StreamName::Present, fault)),
    }
}

/// Judges the values that aren't null, of which there are so many.
fn judge_values<F: Feed>(
    plan: ColumnPlan,
    spelling: Spelling,
    feed: &mut F,
    count: u64,
    rooms: ColumnRooms,
) -> Result<(), ColumnFault>
    requires differ { StreamsDiffer plan }
    ensures judged { IfErr result IsJudged }
    ensures draws { Draws F.rest F.fed F.fault_count plan (judged_values plan spelling) feed.old feed.new
        (λ before after _. Sized plan before → JudgedValues spelling plan.dictionary_size count before)
        (λ before fault. Sized plan before → ValuesFail plan.dictionary_size before count spelling fault) result }
{
    let ColumnRooms { lengths, body } = rooms;
    match spelling {
        Spelling::Bits => judge_bits(plan, feed, count),
        Spelling::Integers(version) => judge_integers(plan, version, feed, count, body),
        Spelling::Texts(version) => judge_texts(plan, version, feed, count, lengths),
        Spelling::Dictionary(version) => judge_dictionary(
            plan, version, feed, count, lengths, body,
        ),
    }
}

fn judge_bits<F: Feed>(plan: ColumnPlan, feed: &mut F, count: u64) -> Result<(), ColumnFault>
    requires differ { StreamsDiffer plan }
    ensures judged { IfErr result IsJudged }
    ensures draws { Draws F.rest F.fed F.fault_count plan (alone plan.body) feed.old feed.new
        (λ before after _. JudgedValues Bits plan.dictionary_size count before)
        (λ before fault. ValuesFail plan.dictionary_size before count Bits fault) result }
{
    let mut bits = BitStream::new(plan.body);
    match skip_bits(feed, &mut bits, count) {
        Ok(()) => Ok(()),
        Err(fault) => Err(of_run(StreamName::Body, fault)),
    }
}

fn judge_integers<F: Feed>(
    plan: ColumnPlan,
    version: Version,
    feed: &mut F,
    count: u64,
    room: RunRoom,
) -> Result<(), ColumnFault>
    requires differ { StreamsDiffer plan }
    ensures judged { IfErr result IsJudged }
    ensures draws { Draws F.rest F.fed F.fault_count plan (alone plan.body) feed.old feed.new
        (λ before after _. JudgedValues (OfIntegers version) plan.dictionary_size count before)
        (λ before fault. ValuesFail plan.dictionary_size before count (OfIntegers version) fault) result }
{
    let mut numbers = Integers::new(room, plan.body, version, true);
    match read_numbers(feed, &mut numbers, count) {
        Ok(_) => Ok(()),
        Err(fault) => Err(of_run(StreamName::Body, fault)),
    }
}

/// Judges the lengths of so many texts, which have `limit` bytes.
fn judge_lengths<F: Feed>(
    plan: ColumnPlan,
    version: Version,
    limit: u64,
    feed: &mut F,
    count: u64,
    room: RunRoom,
) -> Result<(), ColumnFault>
    requires differ { StreamsDiffer plan }
    ensures judged { IfErr result IsJudged }
    ensures draws { Draws F.rest F.fed F.fault_count plan (alone plan.length) feed.old feed.new
        (λ before after _. JudgedLengths version limit count before after)
        (λ before fault. LengthsFail version before.lengths limit count fault) result }
{
    let mut lengths = Integers::new(room, plan.length, version, false);
    let summary = match read_numbers(feed, &mut lengths, count) {
        Ok(summary) => summary,
        Err(fault) => return Err(of_run(StreamName::Length, fault)),
    };
    if summary.bound > NEGATIVE {
        return Err(ColumnFault::NegativeLength);
    }
    if summary.total > u128::from(limit) {
        return Err(ColumnFault::LengthsPastData);
    }
    Ok(())
}

fn judge_texts<F: Feed>(
    plan: ColumnPlan,
    version: Version,
    feed: &mut F,
    count: u64,
    room: RunRoom,
) -> Result<(), ColumnFault>
    requires differ { StreamsDiffer plan }
    ensures judged { IfErr result IsJudged }
    ensures draws { Draws F.rest F.fed F.fault_count plan (alone plan.length) feed.old feed.new
        (λ before after _. Sized plan before → JudgedValues (Texts version) plan.dictionary_size count before)
        (λ before fault. Sized plan before → ValuesFail plan.dictionary_size before count (Texts version) fault) result }
{
    judge_lengths(plan, version, plan.body_len, feed, count, room)
}

fn judge_dictionary<F: Feed>(
    plan: ColumnPlan,
    version: Version,
    feed: &mut F,
    count: u64,
    lengths: RunRoom,
    body: RunRoom,
) -> Result<(), ColumnFault>
    requires differ { StreamsDiffer plan }
    ensures judged { IfErr result IsJudged }
    ensures draws { Draws F.rest F.fed F.fault_count plan (plan.length ∷ alone plan.body) feed.old feed.new
        (λ before after _. Sized plan before → JudgedValues (Dictionary version) plan.dictionary_size count before)
        (λ before fault. Sized plan before → ValuesFail plan.dictionary_size before count (Dictionary version) fault) result }
{
    judge_lengths(
        plan,
        version,
        plan.dictionary_len,
        feed,
        plan.dictionary_size,
        lengths,
    )?;
    let mut places = Integers::new(body, plan.body, version, false);
    let summary = match read_numbers(feed, &mut places, count) {
        Ok(summary) => summary,
        Err(fault) => return Err(of_run(StreamName::Body, fault)),
    };
    if summary.bound > u128::from(plan.dictionary_size) {
        return Err(ColumnFault::IndexOutOfDictionary);
    }
    Ok(())
}
