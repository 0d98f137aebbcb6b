//! The values of a column that aren't null, a batch at a time.
ghost use Rattle.std.specs.Prelude.{◌≡◌, ◌≤◌, [], Some, OnOk, IfOk, IfErr};
ghost use Rattle.orc_values.specs.Column.{entries_in};
ghost use Rattle.orc_columns.specs.declared.plan.ColumnPlan.{ColumnPlan};
ghost use Rattle.orc_columns.specs.declared.value_reader.ValueReader.TheVariants as reader;
ghost use Rattle.orc_columns.specs.Batches.{HoldsNoRead, IsTyped, ReadsPlan, ValuesGoOn, ValuesBreak, ValuesBegin, ValuesFailAtStart};
ghost use Rattle.orc_columns.specs.Draws.{StreamsDiffer, Draws};
ghost use Rattle.orc_columns.specs.Midway.{spelling_in};
ghost use Rattle.orc_columns.specs.Reader.{HasLengths};
ghost use Rattle.orc_columns.specs.Turns.{alone, value_streams, start_by};

use crate::dictionary::{DictionaryReader, next_places, read_entries};
use crate::fault::ColumnFault;
use crate::fills::{fill_bits, fill_numbers};
use crate::integers::Integers;
use crate::plan::ColumnPlan;
use crate::spelling::Spelling;
use crate::text_reader::{TextReader, next_texts};
use orc_integers::RunRoom;
use orc_values::ColumnValues;
use outside::Feed;
use row_flags::BitStream;
use std::alloc::Global;

/// The values of a column that aren't null, by how they are spelled.
#[derive(Drop)]
pub(crate) enum ValueReader {
    Bits(BitStream),
    Integers(Integers),
    Texts(TextReader),
    Dictionary(DictionaryReader),
}

impl ValueReader {
    /// The next `count` values, in the memory of an older batch.
    pub(crate) fn fill<F: Feed>(
        &mut self,
        alloc: Global,
        feed: &mut F,
        count: usize,
        older: ColumnValues,
    ) -> Result<ColumnValues, ColumnFault>
        requires few { count ≤ 1024 }
        ensures spelling { spelling_in self.new ≡ spelling_in self.old }
        ensures count { IfOk result (λ typed. entries_in typed ≡ count) }
        ensures typed { IfOk result (IsTyped (spelling_in self.old)) }
        ensures ready { (plan : ColumnPlan) → ReadsPlan plan self.old → OnOk result (ReadsPlan plan self.new) }
        ensures no_read { IfErr result HoldsNoRead }
        ensures draws { (plan : ColumnPlan) → StreamsDiffer plan → ReadsPlan plan self.old →
            Draws F.rest F.fed F.fault_count plan (value_streams plan (spelling_in self.old)) feed.old feed.new
            (ValuesGoOn plan.dictionary_size self.old self.new)
            (ValuesBreak plan.dictionary_size count self.old) result }
    {
        match self {
            ValueReader::Bits(bits) => next_bits(bits, alloc, feed, count, older),
            ValueReader::Integers(integers) => next_numbers(integers, alloc, feed, count, older),
            ValueReader::Texts(texts) => next_texts(texts, alloc, feed, count, older),
            ValueReader::Dictionary(dictionary) => {
                next_places(dictionary, alloc, feed, count, older)
            }
        }
    }
}

/// The values of a column from the first on; a dictionary is read.
pub(crate) fn start_values<F: Feed>(
    alloc: Global,
    plan: ColumnPlan,
    spelling: Spelling,
    feed: &mut F,
) -> Result<ValueReader, ColumnFault>
    requires differ { StreamsDiffer plan }
    requires lens { HasLengths F.rest feed.old plan }
    ensures spelling { IfOk result (λ values. spelling_in values ≡ spelling) }
    ensures idle { start_by plan (Some spelling) ≡ [] → feed.new ≡ feed.old }
    ensures ready { IfOk result (ReadsPlan plan) }
    ensures no_read { IfErr result HoldsNoRead }
    ensures draws { Draws F.rest F.fed F.fault_count plan (start_by plan (Some spelling)) feed.old feed.new
        (ValuesBegin plan.dictionary_size) (ValuesFailAtStart plan.dictionary_size spelling) result }
{
    match spelling {
        Spelling::Bits => Ok(ValueReader::Bits(BitStream::new(plan.body))),
        Spelling::Integers(version) => {
            let room = RunRoom::new(alloc)?;
            Ok(ValueReader::Integers(Integers::new(room, plan.body, version, true)))
        }
        Spelling::Texts(version) => {
            let room = RunRoom::new(alloc)?;
            Ok(ValueReader::Texts(TextReader {
                lengths: Integers::new(room, plan.length, version, false),
                data: plan.body,
                left: plan.body_len,
                memory: Vec::new(alloc),
            }))
        }
        Spelling::Dictionary(version) => {
            let entries = read_entries(alloc, plan, version, feed)?;
            let room = RunRoom::new(alloc)?;
            Ok(ValueReader::Dictionary(DictionaryReader {
                entries,
                places: Integers::new(room, plan.body, version, false),
            }))
        }
    }
}

/// The next truth values, in the memory of an older batch.
fn next_bits<F: Feed>(
    bits: &mut BitStream,
    alloc: Global,
    feed: &mut F,
    count: usize,
    older: ColumnValues,
) -> Result<ColumnValues, ColumnFault>
    ensures count { IfOk result (λ typed. entries_in typed ≡ count) }
    ensures typed { IfOk result (IsTyped (spelling_in (reader.Bits bits.old))) }
    ensures ready { (plan : ColumnPlan) → ReadsPlan plan (reader.Bits bits.old) → OnOk result (ReadsPlan plan (reader.Bits bits.new)) }
    ensures no_read { IfErr result HoldsNoRead }
    ensures draws { (plan : ColumnPlan) → StreamsDiffer plan → ReadsPlan plan (reader.Bits bits.old) →
        Draws F.rest F.fed F.fault_count plan (alone plan.body) feed.old feed.new
        (ValuesGoOn plan.dictionary_size (reader.Bits bits.old) (reader.Bits bits.new))
        (ValuesBreak plan.dictionary_size count (reader.Bits bits.old)) result }
{
    let mut values = bool_memory(alloc, older);
    values.resize(count, false)?;
    fill_bits(bits, feed, &mut values)?;
    Ok(ColumnValues::Bools(values))
}

/// The next numbers, in the memory of an older batch.
fn next_numbers<F: Feed>(
    integers: &mut Integers,
    alloc: Global,
    feed: &mut F,
    count: usize,
    older: ColumnValues,
) -> Result<ColumnValues, ColumnFault>
    ensures spelling { integers.new.version ≡ integers.old.version }
    ensures count { IfOk result (λ typed. entries_in typed ≡ count) }
    ensures typed { IfOk result (IsTyped (spelling_in (reader.Integers integers.old))) }
    ensures ready { (plan : ColumnPlan) → ReadsPlan plan (reader.Integers integers.old)
        → OnOk result (ReadsPlan plan (reader.Integers integers.new)) }
    ensures no_read { IfErr result HoldsNoRead }
    ensures draws { (plan : ColumnPlan) → StreamsDiffer plan → ReadsPlan plan (reader.Integers integers.old) →
        Draws F.rest F.fed F.fault_count plan (alone plan.body) feed.old feed.new
        (ValuesGoOn plan.dictionary_size (reader.Integers integers.old) (reader.Integers integers.new))
        (ValuesBreak plan.dictionary_size count (reader.Integers integers.old)) result }
{
    let mut values = number_memory(alloc, older);
    values.resize(count, 0)?;
    fill_numbers(integers, feed, &mut values, count)?;
    Ok(ColumnValues::Ints(values))
}

/// The memory of an older batch of truth values, if it is one.
fn bool_memory(alloc: Global, older: ColumnValues) -> Vec<bool> {
    match older {
        ColumnValues::Bools(entries) => entries,
        _ => Vec::new(alloc),
    }
}

/// The memory of an older batch of numbers, if it is one.
fn number_memory(alloc: Global, older: ColumnValues) -> Vec<i64> {
    match older {
        ColumnValues::Ints(entries) => entries,
        _ => Vec::new(alloc),
    }
}
