//! The counts of values.
ghost use Rattle.std.specs.Prelude.{◌≡◌, ◌==◌, [], length, OnOk};
ghost use Rattle.orc_values.specs.Shown.{shown};
ghost use Rattle.orc_values.specs.declared.value.Value.TheVariants as value;
ghost use Rattle.orc_values.specs.declared.column_values.ColumnValues.TheVariants as list;
ghost use Rattle.orc_values.specs.Column.{column_of};
ghost use Rattle.orc_values.specs.Woven.{present_count};
ghost use Rattle.group_counts.specs.Order.{value_cmp};
ghost use Rattle.group_counts.specs.Tally.{added, added_all};
ghost use Rattle.group_counts.specs.Entries.{one, renamed, by_bytes, entries_of, all_fit};
ghost use Rattle.group_counts.specs.Slots.{counted, slot_entries};
ghost use Rattle.group_counts.specs.EntryCounts.{entry_counts, flagged};

use crate::entry_counts::count_rows;
use crate::maps::{add_number, add_text, fits, more, numbers_fit, some_key, texts_fit};
use crate::parts::Parts;
use crate::seen::{Seen, Slot};
use orc_values::{ChosenTexts, Texts, ValueRef};
use outside::NoMemory;
use std::alloc::Global;
use std::collections::BTreeMap;
use std::marker::Model;

/// How often each value was counted.
///
/// Contracts see it as the list of the values with their counts, values ascending: null, false, true, numbers, texts by
/// their bytes. A count that would pass the greatest number of 64 bits stays there.
#[derive(Drop)]
pub struct Counts {
    nulls: Option<u64>,
    falses: Option<u64>,
    trues: Option<u64>,
    numbers: BTreeMap<i64, u64>,
    texts: BTreeMap<Vec<u8>, u64>,
}

impl Model for Counts {
    ghost use Rattle.group_counts.specs.Entries.{Entries, entries_of, by_bytes};

    ghost Value = { Entries };

    ghost view = { λ c. entries_of c.nulls c.falses c.trues c.numbers.entries (by_bytes c.texts.entries) };
}

impl Counts {
    /// No value, and no memory.
    pub fn new(alloc: Global) -> Counts
        ensures { result ≡ [] }
    {
        Counts {
            nulls: None,
            falses: None,
            trues: None,
            numbers: BTreeMap::new(alloc),
            texts: BTreeMap::new(alloc),
        }
    }

    /// Counts a value so often more. A text that is new is copied.
    ///
    /// Answers `NoMemory` only where memory was refused.
    pub fn add(&mut self, alloc: Global, key: ValueRef<'_>, count: u64) -> Result<(), NoMemory>
        ensures { OnOk result (self.new ≡ added value_cmp self.old (shown key.entry) count) }
    {
        self.add_lent(alloc, &key, count)
    }

    /// The same of a value that is lent.
    fn add_lent(&mut self, alloc: Global, key: &ValueRef<'_>, count: u64) -> Result<(), NoMemory>
        ensures { OnOk result (self.new ≡ added value_cmp self.old (shown key.now) count) }
    {
        match key {
            ValueRef::Null => {
                self.nulls = Some(more(self.nulls, count));
                Ok(())
            }
            ValueRef::Bool(truth) => {
                if *truth {
                    self.trues = Some(more(self.trues, count));
                    return Ok(());
                }
                self.falses = Some(more(self.falses, count));
                Ok(())
            }
            ValueRef::Int(number) => add_number(&mut self.numbers, number, count),
            ValueRef::Text(text) => add_text(alloc, &mut self.texts, text, count),
        }
    }

    /// Counts a value of a batch once more: in the batch's table, or by itself where its place there holds another.
    ///
    /// Answers `NoMemory` only where memory was refused.
    pub fn add_seen<'a>(
        &mut self,
        alloc: Global,
        seen: &mut Seen<'a>,
        key: ValueRef<'a>,
    ) -> Result<(), NoMemory>
        ensures { OnOk result (added_all value_cmp self.new seen.new
            ≡ added value_cmp (added_all value_cmp self.old seen.old) (shown key.entry) 1) }
    {
        if seen.add(key) {
            return Ok(());
        }
        self.add(alloc, key, 1)
    }

    /// Counts each value of a batch's table as often more as it was counted there.
    ///
    /// Answers `NoMemory` only where memory was refused.
    pub fn add_all_seen(&mut self, alloc: Global, seen: &Seen<'_>) -> Result<(), NoMemory>
        ensures { OnOk result (self.new ≡ added_all value_cmp self.old seen.now) }
    {
        self.add_slots(alloc, seen.slots())
    }

    /// Counts the value of each slot as often more as it was counted there.
    fn add_slots(&mut self, alloc: Global, slots: &[Slot<'_>]) -> Result<(), NoMemory>
        ensures { OnOk result (self.new ≡ added_all value_cmp self.old (slot_entries slots.now)) }
    {
        for slot in slots {
            self.add_counted(alloc, slot.key, slot.count)?;
        }
        Ok(())
    }

    /// Counts a value so often more, and not at all where that is never.
    fn add_counted(&mut self, alloc: Global, key: ValueRef<'_>, count: u64) -> Result<(), NoMemory>
        ensures { OnOk result (self.new ≡ added_all value_cmp self.old (counted (shown key.entry) count)) }
    {
        if count == 0 {
            return Ok(());
        }
        self.add(alloc, key, count)
    }

    /// Counts each value of rows whose flag is set once more, where the rows that aren't null have texts of a dictionary.
    ///
    /// Each entry is counted by its number first, and goes to the counts once. There is a flag in `present` for each row, set where the
    /// row has the next of the texts, and one in `mask`. Answers `NoMemory` only where memory was refused.
    pub fn add_chosen(
        &mut self,
        alloc: Global,
        present: &[bool],
        texts: &ChosenTexts,
        mask: &[bool],
    ) -> Result<(), NoMemory>
        requires rows { length mask.now ≡ length present.now }
        requires count { length texts.now ≡ present_count present.now }
        ensures { OnOk result (self.new
            ≡ added_all value_cmp self.old (flagged mask.now (column_of present.now (list.Chosen texts.now)))) }
    {
        let (entries, numbers) = texts.parts();
        let Ok(mut counts) = vec![in alloc; 0u64; entries.len()] else {
            return Err(NoMemory);
        };
        let nulls = count_rows(&mut counts, present, numbers, mask);
        self.add_counted(alloc, ValueRef::Null, nulls)?;
        self.add_entries(alloc, entries, &counts)
    }

    /// Counts each entry of a dictionary as often more as its count says.
    fn add_entries(
        &mut self,
        alloc: Global,
        entries: &Texts,
        counts: &[u64],
    ) -> Result<(), NoMemory>
        requires { length counts.now ≡ length entries.now }
        ensures { OnOk result (self.new ≡ added_all value_cmp self.old (entry_counts entries.now counts.now)) }
    {
        for entry in 0..counts.len() {
            self.add_counted(alloc, ValueRef::Text(entries.get(entry)), counts[entry])?;
        }
        Ok(())
    }

    /// Counts each value of other counts as often more as it stands there.
    ///
    /// Answers `NoMemory` only where memory was refused.
    pub fn add_all(&mut self, alloc: Global, other: &Counts) -> Result<(), NoMemory>
        ensures { OnOk result (self.new ≡ added_all value_cmp self.old other.now) }
    {
        self.add_some(alloc, ValueRef::Null, other.nulls)?;
        self.add_some(alloc, ValueRef::Bool(false), other.falses)?;
        self.add_some(alloc, ValueRef::Bool(true), other.trues)?;
        self.add_numbers(alloc, &other.numbers)?;
        self.add_texts(alloc, &other.texts)
    }

    /// Counts a value more, where there is a count.
    fn add_some(
        &mut self,
        alloc: Global,
        key: ValueRef<'_>,
        count: Option<u64>,
    ) -> Result<(), NoMemory>
        ensures { OnOk result (self.new ≡ added_all value_cmp self.old (one (shown key.entry) count)) }
    {
        match count {
            Some(count) => self.add(alloc, key, count),
            None => Ok(()),
        }
    }

    /// Counts each number more.
    fn add_numbers(&mut self, alloc: Global, other: &BTreeMap<i64, u64>) -> Result<(), NoMemory>
        ensures { OnOk result (self.new ≡ added_all value_cmp self.old (renamed (λ n. value.Int n) other.now.entries)) }
    {
        for (number, count) in other {
            self.add(alloc, ValueRef::Int(*number), *count)?;
        }
        Ok(())
    }

    /// Counts each text more.
    fn add_texts(&mut self, alloc: Global, other: &BTreeMap<Vec<u8>, u64>) -> Result<(), NoMemory>
        ensures { OnOk result (self.new ≡ added_all value_cmp self.old (renamed (λ t. value.Text t) (by_bytes other.now.entries))) }
    {
        for (text, count) in other {
            self.add(alloc, ValueRef::Text(text.as_slice()), *count)?;
        }
        Ok(())
    }

    /// Whether each count is a number of the 64 bits of `i64`.
    pub fn all_fit(&self) -> bool
        ensures { result ≡ all_fit self.now }
    {
        let kinds = fits(self.nulls) & fits(self.falses) & fits(self.trues);
        kinds & numbers_fit(&self.numbers) & texts_fit(&self.texts)
    }

    /// How many values were counted. Numbers and texts may be as many as memory can hold, each by itself.
    pub fn len(&self) -> u128
        ensures { result ≡ length self.now }
    {
        let kinds = some_key(self.nulls) + some_key(self.falses) + some_key(self.trues);
        kinds + self.numbers.len() as u128 + self.texts.len() as u128
    }

    /// Whether none was.
    pub fn is_empty(&self) -> bool
        ensures { result ≡ (length self.now == 0) }
    {
        self.len() == 0
    }

    /// The counts by kind, lent.
    pub fn parts(&self) -> Parts<'_>
        ensures { entries_of result.nulls result.falses result.trues
            result.numbers.now.entries (by_bytes result.texts.now.entries) ≡ self.now }
    {
        Parts {
            nulls: self.nulls,
            falses: self.falses,
            trues: self.trues,
            numbers: &self.numbers,
            texts: &self.texts,
        }
    }
}
