//! Entries of a dictionary, counted by their numbers.
//!
//! So an entry's text is looked at once a batch, and a row costs no more than a look at its number.
ghost use Rattle.std.specs.Prelude.{◌≡◌, ◌<◌, ◌≤◌, ◌+◌, ◌-◌, ◌^◌, ℕ, List, length, map, get_or, set, All, if◌then◌else◌};
ghost use Rattle.orc_values.specs.declared.value.Value.TheVariants as value;
ghost use Rattle.orc_values.specs.declared.column_values.ColumnValues.TheVariants as list;
ghost use Rattle.orc_values.specs.Column.{column_of};
ghost use Rattle.orc_values.specs.Chosen.{places_of, chosen};
ghost use Rattle.orc_values.specs.Woven.{present_count};
ghost use Rattle.group_counts.specs.Order.{value_cmp};
ghost use Rattle.group_counts.specs.Tally.{added_all};
ghost use Rattle.group_counts.specs.Entries.{Entries};
ghost use Rattle.group_counts.specs.Slots.{counted};
ghost use Rattle.group_counts.specs.EntryCounts.{entry_counts, flagged};

use orc_values::entry_at;

/// Counts the entry of each row's number once more where the row's flag is set, and answers how many such rows have no number.
///
/// There is a count for each entry, none of which was counted before, and a number for each row that is present.
pub(crate) fn count_rows(
    counts: &mut [u64],
    present: &[bool],
    numbers: &[i64],
    mask: &[bool],
) -> u64
    requires rows { length mask.now ≡ length present.now }
    requires count { length numbers.now ≡ present_count present.now }
    requires within { All (λ place. place < length counts.old) (places_of numbers.now) }
    requires none { All (λ count. count ≤ 0) counts.old }
    ensures long { length counts.new ≡ length counts.old }
    ensures counted { (texts : List (List ℕ)) → length texts ≡ length counts.old → (es : Entries) →
        added_all value_cmp (added_all value_cmp es (counted value.Null result)) (entry_counts texts counts.new)
        ≡ added_all value_cmp (added_all value_cmp es (entry_counts texts counts.old))
        (flagged mask.now (column_of present.now (list.Chosen (chosen texts (places_of numbers.now))))) }
{
    if numbers.len() == present.len() {
        count_all(counts, numbers, mask);
        return 0;
    }
    count_some(counts, present, numbers, mask)
}

/// The same where no row is null.
fn count_all(counts: &mut [u64], numbers: &[i64], mask: &[bool])
    requires rows { length mask.now ≡ length numbers.now }
    requires within { All (λ place. place < length counts.old) (places_of numbers.now) }
    requires none { All (λ count. count ≤ 0) counts.old }
    ensures long { length counts.new ≡ length counts.old }
    ensures counted { (texts : List (List ℕ)) → length texts ≡ length counts.old → (es : Entries) →
        added_all value_cmp es (entry_counts texts counts.new)
        ≡ added_all value_cmp (added_all value_cmp es (entry_counts texts counts.old))
        (flagged mask.now (map (λ text. value.Text text) (chosen texts (places_of numbers.now)))) }
{
    for row in 0..mask.len() {
        count_entry(counts, entry_at(numbers, row), mask[row]);
    }
}

/// The same where some may be.
fn count_some(counts: &mut [u64], present: &[bool], numbers: &[i64], mask: &[bool]) -> u64
    requires rows { length mask.now ≡ length present.now }
    requires count { length numbers.now ≡ present_count present.now }
    requires within { All (λ place. place < length counts.old) (places_of numbers.now) }
    requires none { All (λ count. count ≤ 0) counts.old }
    ensures long { length counts.new ≡ length counts.old }
    ensures counted { (texts : List (List ℕ)) → length texts ≡ length counts.old → (es : Entries) →
        added_all value_cmp (added_all value_cmp es (counted value.Null result)) (entry_counts texts counts.new)
        ≡ added_all value_cmp (added_all value_cmp es (entry_counts texts counts.old))
        (flagged mask.now (column_of present.now (list.Chosen (chosen texts (places_of numbers.now))))) }
{
    let mut nulls = 0;
    let mut before = 0;
    for row in 0..mask.len() {
        if !present[row] {
            nulls += u64::from(mask[row]);
            continue;
        }
        count_entry(counts, entry_at(numbers, before), mask[row]);
        before += 1;
    }
    nulls
}

/// Counts an entry once more, where the flag is set.
fn count_entry(counts: &mut [u64], entry: usize, flag: bool)
    requires entry { entry < length counts.old }
    requires few { get_or counts.old entry 0 < 2 ^ 64 - 1 }
    ensures { counts.new ≡ set counts.old entry (get_or counts.old entry 0 + (if flag then 1 else 0)) }
{
    counts[entry] += u64::from(flag);
}
