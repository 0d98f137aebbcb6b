//! Columns of stripes as lines of words, and what is read of them.
ghost use Rattle.std.specs.Prelude.{◌≡◌, ℕ, Some};

use crate::case_feed::CaseFeed;
use orc_columns::{
    Column, ColumnFault, ColumnPlan, ColumnReader, ColumnRooms, ValueRef, first_fault,
};
use std::alloc::Global;

/// A column of a stripe: its kind, its encoding, the size of its dictionary and its rows; whether it has a PRESENT stream; its streams
/// PRESENT, DATA, LENGTH and DICTIONARY_DATA; and what is wanted of it.
#[derive(Drop)]
pub struct Case<'a> {
    numbers: Vec<u64>,
    has_present: bool,
    streams: Vec<Vec<u8>>,
    pub wanted: &'a str,
}

/// The number of a word.
pub fn number_of(word: &str) -> Option<u64> {
    word.parse::<u64>().ok()
}

/// The first four words of a line, which are numbers.
fn numbers_of(alloc: Global, column: &str) -> Option<Vec<u64>> {
    let mut numbers = Vec::new(alloc);
    for word in column.split(' ').take(4) {
        numbers.push(number_of(word)?).ok()?;
    }
    Some(numbers)
}

/// The streams behind them, by two hexadecimal digits a byte. A dot stands for no byte, and a dash for a stream that isn't there.
fn streams_of(alloc: Global, column: &str) -> Option<Vec<Vec<u8>>> {
    let mut streams = Vec::new(alloc);
    for word in column.split(' ').skip(4) {
        let digits = if word == "." || word == "-" { "" } else { word };
        streams.push(hex::decode(alloc, digits).ok()?).ok()?;
    }
    Some(streams)
}

/// The case of a line: the four numbers, the four streams, and behind a colon what is wanted.
pub fn case_of<'a>(alloc: Global, line: &'a str) -> Option<Case<'a>> {
    let (column, wanted) = line.split_once(" : ")?;
    let numbers = numbers_of(alloc, column)?;
    let streams = streams_of(alloc, column)?;
    Some(Case {
        numbers,
        has_present: !column.contains('-'),
        streams,
        wanted,
    })
}

/// The feed of a case, of which that take fails.
pub fn feed_of<'a>(alloc: Global, case: &'a Case<'_>, fails_at: u64) -> Option<CaseFeed<'a>> {
    let mut rests = Vec::new(alloc);
    for stream in &case.streams {
        rests.push(stream.as_slice()).ok()?;
    }
    Some(CaseFeed {
        rests,
        takes: 0,
        fails_at,
        trail: 0,
        faults: 0,
    })
}

/// A number of a case, by its place.
fn number(case: &Case<'_>, place: usize) -> u64 {
    match case.numbers.get(place) {
        Some(number) => *number,
        None => 0,
    }
}

/// How many bytes a stream of a case has.
fn len(case: &Case<'_>, stream: usize) -> u64 {
    match case.streams.get(stream) {
        Some(bytes) => bytes.len() as u64,
        None => 0,
    }
}

fn plan_of(case: &Case<'_>) -> ColumnPlan
    ensures present { (stream : ℕ) → result.present ≡ Some stream → stream ≡ 0 }
    ensures body { result.body ≡ Some 1 }
    ensures length { result.length ≡ Some 2 }
    ensures dictionary { result.dictionary ≡ Some 3 }
{
    ColumnPlan {
        kind: number(case, 0),
        encoding: Some(number(case, 1)),
        dictionary_size: number(case, 2),
        present: if case.has_present { Some(0) } else { None },
        body: Some(1),
        length: Some(2),
        dictionary: Some(3),
        body_len: len(case, 1),
        dictionary_len: len(case, 3),
    }
}

/// The first fault of the case's column as a word, or no word.
pub fn judged(alloc: Global, case: &Case<'_>, feed: &mut CaseFeed<'_>) -> Option<String> {
    let rooms = ColumnRooms::new(alloc).ok()?;
    match first_fault(plan_of(case), feed, number(case, 3), rooms) {
        Ok(None) => Some(String::new(alloc)),
        Ok(Some(fault)) => format!(in alloc; "{fault:?}").ok(),
        Err(_) => None,
    }
}

/// The rows of a batch as words, each with a space behind it.
pub fn push_rows(alloc: Global, words: &mut String, column: &Column) -> Option<()> {
    for row in 0..column.len() {
        let word = match column.get(row) {
            ValueRef::Null => String::from_str(alloc, "null ").ok()?,
            ValueRef::Bool(value) => format!(in alloc; "{value} ").ok()?,
            ValueRef::Int(value) => format!(in alloc; "{value} ").ok()?,
            ValueRef::Text(bytes) => format!(in alloc;
                "'{}' ",
                str::from_utf8(bytes).unwrap_or("?")
            ).ok()?,
        };
        words.push_str(&word).ok()?;
    }
    Some(())
}

/// Reads a batch of so many rows. A fault is answered again, and takes nothing then; else nothing is answered here.
fn next_batch(
    alloc: Global,
    reader: &mut ColumnReader,
    feed: &mut CaseFeed<'_>,
    rows: u64,
    out: &mut Column,
) -> Option<Result<(), ColumnFault>> {
    let rows = rows.clamp(1, 1024) as u32;
    let Err(fault) = reader.next_batch(alloc, feed, rows, out) else {
        feed.end_part();
        return Some(Ok(()));
    };
    let takes = feed.takes;
    let again = reader.next_batch(alloc, feed, rows, out).err();
    if again != Some(fault) || feed.takes != takes {
        return None;
    }
    Some(Err(fault))
}

/// Reads so many rows, in batches of so many, and adds them as words.
fn read_rows(
    alloc: Global,
    reader: &mut ColumnReader,
    feed: &mut CaseFeed<'_>,
    sizes: (u64, u64),
    out: &mut Column,
    words: &mut String,
) -> Option<Result<(), ColumnFault>> {
    let (mut left, batch) = sizes;
    while left > 0 {
        let rows = left.min(batch);
        if let Err(fault) = next_batch(alloc, reader, feed, rows, out)? {
            return Some(Err(fault));
        }
        push_rows(alloc, words, out)?;
        left = left.saturating_sub(rows.max(1));
    }
    Some(Ok(()))
}

/// What a column's batches of so many rows give: its rows as words, or its fault. A part of the feed's trail ends behind the start and
/// behind each batch.
pub fn read_column(
    alloc: Global,
    case: &Case<'_>,
    feed: &mut CaseFeed<'_>,
    batch: u64,
) -> Option<String> {
    let mut words = String::new(alloc);
    let read = match ColumnReader::start(alloc, plan_of(case), feed) {
        Ok(mut reader) => {
            feed.end_part();
            let sizes = (number(case, 3), batch);
            let mut out = Column::empty(alloc);
            read_rows(alloc, &mut reader, feed, sizes, &mut out, &mut words)?
        }
        Err(fault) => Err(fault),
    };
    match read {
        Ok(()) => Some(words),
        Err(fault) => format!(in alloc; "{fault:?}").ok(),
    }
}
