//! Counts by keys of one kind.
ghost use Rattle.std.specs.Prelude.{◌≡◌, ◌≤◌, OnOk};
ghost use Rattle.std.specs.Ordering.{nat_cmp, int_cmp};
ghost use Rattle.std.specs.Cmp.Lexicographic.{slice_cmp};
ghost use Rattle.group_counts.specs.Tally.{added};
ghost use Rattle.group_counts.specs.Entries.{by_bytes, all_fit, plus_some, some_fits, some_length};

use outside::NoMemory;
use std::alloc::Global;
use std::collections::BTreeMap;

/// The least count that isn't a number of the 64 bits of `i64`.
const LIMIT: u64 = 0x8000_0000_0000_0000;

/// A count with another more.
pub(crate) fn more(count: Option<u64>, other: u64) -> u64
    ensures { result ≡ plus_some count other }
{
    match count {
        Some(count) => count.saturating_add(other),
        None => other,
    }
}

/// Whether a count, where there is one, is a number of the 64 bits of `i64`.
pub(crate) fn fits(count: Option<u64>) -> bool
    ensures { result ≡ some_fits count }
{
    match count {
        Some(count) => count < LIMIT,
        None => true,
    }
}

/// How many keys a kind of one value has.
pub(crate) fn some_key(count: Option<u64>) -> u128
    ensures key { result ≡ some_length count }
    ensures few { result ≤ 1 }
{
    match count {
        Some(_) => 1,
        None => 0,
    }
}

/// Counts a number so often more.
pub(crate) fn add_number(
    counts: &mut BTreeMap<i64, u64>,
    key: &i64,
    more: u64,
) -> Result<(), NoMemory>
    ensures { OnOk result (counts.new.entries ≡ added int_cmp counts.old.entries key.now more) }
{
    let number = *key;
    add_key(counts, number, more)
}

fn add_key(counts: &mut BTreeMap<i64, u64>, key: i64, more: u64) -> Result<(), NoMemory>
    ensures { OnOk result (counts.new.entries ≡ added int_cmp counts.old.entries key more) }
{
    match counts.get_mut(&key) {
        Some(count) => {
            *count = count.saturating_add(more);
            Ok(())
        }
        None => match counts.insert(key, more) {
            Ok(_) => Ok(()),
            Err(_) => Err(NoMemory),
        },
    }
}

/// Counts a text so often more. It is copied where it is new.
pub(crate) fn add_text(
    alloc: Global,
    counts: &mut BTreeMap<Vec<u8>, u64>,
    text: &[u8],
    more: u64,
) -> Result<(), NoMemory>
    ensures { OnOk result (by_bytes counts.new.entries ≡ added (slice_cmp nat_cmp) (by_bytes counts.old.entries) text.now more) }
{
    match counts.get_mut(text) {
        Some(count) => {
            *count = count.saturating_add(more);
            Ok(())
        }
        None => {
            let Ok(key) = Vec::from_slice(alloc, text) else {
                return Err(NoMemory);
            };
            match counts.insert(key, more) {
                Ok(_) => Ok(()),
                Err(_) => Err(NoMemory),
            }
        }
    }
}

/// Whether each count of numbers is a number of the 64 bits of `i64`.
pub(crate) fn numbers_fit(counts: &BTreeMap<i64, u64>) -> bool
    ensures { result ≡ all_fit counts.now.entries }
{
    for (_, count) in counts {
        if *count >= LIMIT {
            return false;
        }
    }
    true
}

/// Whether each count of texts is a number of the 64 bits of `i64`.
pub(crate) fn texts_fit(counts: &BTreeMap<Vec<u8>, u64>) -> bool
    ensures { result ≡ all_fit counts.now.entries }
{
    for (_, count) in counts {
        if *count >= LIMIT {
            return false;
        }
    }
    true
}
