//! Texts of a dictionary.
ghost use Rattle.std.specs.Prelude.{◌≡◌, ◌∷◌, ◌<◌, ◌≤◌, ◌^◌, ℕ, [], length, map, sum, unsigned_abs, All, Contains};
ghost use Rattle.std.specs.Prelude.{ℤ, List, OnOk, IfOk, IfErr, IsTrue, IsFalse};
ghost use Rattle.std.specs.Int.{w64, cast_unsigned, IsNonNegative};
ghost use Rattle.outside.specs.Reading.{placed};
ghost use Rattle.orc_values.specs.Texts.{running_ends};
ghost use Rattle.orc_columns.specs.declared.fault.ColumnFault.TheVariants as fault;
ghost use Rattle.orc_columns.specs.Column.{places_of};
ghost use Rattle.orc_values.specs.Chosen.{chosen, AreWithin};
ghost use Rattle.orc_columns.specs.Entries.{IsOutOf, LengthsRead};
ghost use Rattle.orc_values.specs.Column.{entries_in};
ghost use Rattle.orc_columns.specs.declared.plan.ColumnPlan.{ColumnPlan};
ghost use Rattle.orc_columns.specs.declared.value_reader.ValueReader.TheVariants as reader;
ghost use Rattle.orc_columns.specs.Batches.{HoldsNoRead, IsTyped, TotalOf, ReadsPlan, ValuesGoOn, ValuesBreak, EntriesRead, EntriesFail};
ghost use Rattle.orc_columns.specs.Draws.{StreamsDiffer, Draws};
ghost use Rattle.orc_columns.specs.Midway.{spelling_in};
ghost use Rattle.orc_columns.specs.Reader.{HasLengths};
ghost use Rattle.orc_columns.specs.Turns.{alone};

use crate::entry_lengths::push_all_lengths;
use crate::fault::ColumnFault;
use crate::fills::fill_numbers;
use crate::integers::Integers;
use crate::lengths::total_of;
use crate::plan::ColumnPlan;
use crate::spelling::Version;
use crate::text_bytes::read_bytes;
use orc_integers::RunRoom;
use orc_values::{ChosenTexts, ColumnValues, Dictionary, Texts};
use outside::Feed;
use row_texts::{ends_of, is_any_past};
use std::alloc::Global;

/// Texts of a dictionary, each spelled by the number of its entry in DATA.
#[derive(Drop)]
pub(crate) struct DictionaryReader {
    /// The entries, which each batch shares.
    pub(crate) entries: Dictionary,
    /// The numbers of entries.
    pub(crate) places: Integers,
}

/// The next texts of a dictionary, as the numbers of their entries, in the memory of an older batch.
pub(crate) fn next_places<F: Feed>(
    dictionary: &mut DictionaryReader,
    alloc: Global,
    feed: &mut F,
    count: usize,
    older: ColumnValues,
) -> Result<ColumnValues, ColumnFault>
    requires few { count ≤ 1024 }
    ensures spelling { spelling_in (reader.Dictionary dictionary.new) ≡ spelling_in (reader.Dictionary dictionary.old) }
    ensures count { IfOk result (λ typed. entries_in typed ≡ count) }
    ensures typed { IfOk result (IsTyped (spelling_in (reader.Dictionary dictionary.old))) }
    ensures ready { (plan : ColumnPlan) → ReadsPlan plan (reader.Dictionary dictionary.old)
        → OnOk result (ReadsPlan plan (reader.Dictionary dictionary.new)) }
    ensures no_read { IfErr result HoldsNoRead }
    ensures draws { (plan : ColumnPlan) → StreamsDiffer plan → ReadsPlan plan (reader.Dictionary dictionary.old) →
        Draws F.rest F.fed F.fault_count plan (alone plan.body) feed.old feed.new
        (ValuesGoOn plan.dictionary_size (reader.Dictionary dictionary.old) (reader.Dictionary dictionary.new))
        (ValuesBreak plan.dictionary_size count (reader.Dictionary dictionary.old)) result }
{
    let mut numbers = place_memory(alloc, older);
    numbers.resize(count, 0)?;
    fill_numbers(&mut dictionary.places, feed, &mut numbers, count)?;
    let texts = looked_up(&dictionary.entries, numbers)?;
    Ok(ColumnValues::Chosen(texts))
}

/// The memory of an older batch of numbers of entries, if it is one.
fn place_memory(alloc: Global, older: ColumnValues) -> Vec<i64> {
    match older {
        ColumnValues::Chosen(texts) => texts.into_parts().1,
        _ => Vec::new(alloc),
    }
}

/// The texts of some entries, by their numbers, which it keeps. No entry is copied.
///
/// Answers `IndexOutOfDictionary` where a number isn't below the number of entries, and `NoMemory` where the dictionary has as
/// many owners as can be counted.
fn looked_up(entries: &Dictionary, numbers: Vec<i64>) -> Result<ChosenTexts, ColumnFault>
    ensures below { IfOk result (λ _. AreWithin entries.now numbers.items) }
    ensures texts { IfOk result (λ texts. texts ≡ chosen entries.now (places_of numbers.items)) }
    ensures refused { IfErr result (IsOutOf entries.now numbers.items) }
{
    if is_any_past(&numbers, entries.len()) {
        return Err(ColumnFault::IndexOutOfDictionary);
    }
    match entries.share() {
        Ok(shared) => Ok(ChosenTexts::new(shared, numbers)),
        Err(_) => Err(ColumnFault::NoMemory),
    }
}

/// The entries of a dictionary: all its lengths are read, and then the bytes of all its texts at once.
pub(crate) fn read_entries<F: Feed>(
    alloc: Global,
    plan: ColumnPlan,
    version: Version,
    feed: &mut F,
) -> Result<Dictionary, ColumnFault>
    requires differ { StreamsDiffer plan }
    requires lens { HasLengths F.rest feed.old plan }
    ensures no_read { IfErr result HoldsNoRead }
    ensures draws { Draws F.rest F.fed F.fault_count plan (plan.length ∷ alone plan.dictionary) feed.old feed.new
        (EntriesRead version plan.dictionary_size) (EntriesFail version plan.dictionary_size) result }
{
    let mut lengths = Vec::new(alloc);
    let total = entry_lengths(alloc, plan, version, feed, &mut lengths)?;
    let ends = ends_of(alloc, &lengths)?;
    let mut bytes = Vec::new(alloc);
    read_bytes(feed, plan.dictionary, &mut bytes, total)?;
    let entries = Dictionary::new(alloc, Texts::new(bytes, ends))?;
    Ok(entries)
}

/// Reads the lengths of all entries, and answers how many bytes they are together.
fn entry_lengths<F: Feed>(
    alloc: Global,
    plan: ColumnPlan,
    version: Version,
    feed: &mut F,
    lengths: &mut Vec<i64>,
) -> Result<u64, ColumnFault>
    requires differ { StreamsDiffer plan }
    requires lens { HasLengths F.rest feed.old plan }
    requires none { lengths.old.items ≡ [] }
    ensures total { IfOk result (TotalOf lengths.new.items plan.dictionary_len) }
    ensures no_read { IfErr result HoldsNoRead }
    ensures draws { Draws F.rest F.fed F.fault_count plan (alone plan.length) feed.old feed.new
        (LengthsRead version plan.dictionary_size) (EntriesFail version plan.dictionary_size) (placed lengths.new.items result) }
{
    let room = RunRoom::new(alloc)?;
    let mut integers = Integers::new(room, plan.length, version, false);
    push_all_lengths(&mut integers, feed, lengths, plan.dictionary_size)?;
    total_of(lengths, plan.dictionary_len)
}
