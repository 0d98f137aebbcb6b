//! Values of a batch that are counted in a small table, before their counts go on.
ghost use Rattle.std.specs.Prelude.{◌≡◌, [], true, false, IfOk};
ghost use Rattle.orc_values.specs.Shown.{shown};
ghost use Rattle.group_counts.specs.Order.{value_cmp};
ghost use Rattle.group_counts.specs.Tally.{added, added_all};
ghost use Rattle.group_counts.specs.Entries.{Entries};
ghost use Rattle.group_counts.specs.Slots.{slot_entries};

use orc_values::ValueRef;
use outside::NoMemory;
use std::alloc::Global;
use std::marker::Model;

/// How many values the table has room for.
const PLACES: usize = 256;

/// A value, and how often it was counted: never, where the slot is free.
#[derive(Clone, Copy)]
pub(crate) struct Slot<'a> {
    pub(crate) key: ValueRef<'a>,
    pub(crate) count: u64,
}

/// How often values of a batch were counted, which it borrows.
///
/// Each value has one place in a small table, and a place holds one value: the first one that comes. Contracts see it as the list of the
/// values that it holds, with their counts.
#[derive(Drop)]
pub struct Seen<'a> {
    slots: Vec<Slot<'a>>,
}

impl<'a> Model for Seen<'a> {
    ghost use Rattle.group_counts.specs.Entries.{Entries};
    ghost use Rattle.group_counts.specs.Slots.{slot_entries};

    ghost Value = { Entries };

    ghost view = { λ seen. slot_entries seen.slots.items };
}

impl<'a> Seen<'a> {
    /// No value. It takes all memory that it ever needs, and `NoMemory` comes where that is refused.
    pub fn new(alloc: Global) -> Result<Seen<'a>, NoMemory>
        ensures { IfOk result (λ seen. seen ≡ []) }
    {
        let free = Slot {
            key: ValueRef::Null,
            count: 0,
        };
        match vec![in alloc; free; PLACES] {
            Ok(slots) => Ok(Seen { slots }),
            Err(_) => Err(NoMemory),
        }
    }

    /// Counts a value once more, and answers whether it did: it doesn't where its place holds another.
    pub(crate) fn add(&mut self, key: ValueRef<'a>) -> bool
        ensures counted { result ≡ true → (es : Entries) →
            added_all value_cmp es self.new ≡ added value_cmp (added_all value_cmp es self.old) (shown key.entry) 1 }
        ensures refused { result ≡ false → self.new ≡ self.old }
    {
        let place = place_of(&key);
        add_at(&mut self.slots, place, key)
    }

    /// The slots, lent.
    pub(crate) fn slots(&self) -> &[Slot<'a>]
        ensures { slot_entries result.now ≡ self.now }
    {
        self.slots.as_slice()
    }
}

/// Counts a value once more at a place, unless that holds another.
fn add_at<'a>(slots: &mut Vec<Slot<'a>>, place: usize, key: ValueRef<'a>) -> bool
    ensures counted { result ≡ true → (es : Entries) → added_all value_cmp es (slot_entries slots.new.items)
        ≡ added value_cmp (added_all value_cmp es (slot_entries slots.old.items)) (shown key.entry) 1 }
    ensures refused { result ≡ false → slots.new ≡ slots.old }
{
    if place >= slots.len() {
        return false;
    }
    let slot = slots[place];
    if slot.count == 0 {
        slots[place] = Slot { key, count: 1 };
        return true;
    }
    if !is_same(slot.key, key) {
        return false;
    }
    slots[place] = Slot {
        key: slot.key,
        count: slot.count.saturating_add(1),
    };
    true
}

/// Whether two values are found to be the same.
fn is_same(one: ValueRef<'_>, two: ValueRef<'_>) -> bool
    ensures { result ≡ true → shown one.entry ≡ shown two.entry }
{
    match (one, two) {
        (ValueRef::Null, ValueRef::Null) => true,
        (ValueRef::Bool(one), ValueRef::Bool(two)) => one == two,
        (ValueRef::Int(one), ValueRef::Int(two)) => one == two,
        (ValueRef::Text(one), ValueRef::Text(two)) => is_same_text(one, two),
        _ => false,
    }
}

/// The same of texts, byte by byte, since most are short.
fn is_same_text(one: &[u8], two: &[u8]) -> bool
    ensures { result ≡ true → one.now ≡ two.now }
{
    if one.len() != two.len() {
        return false;
    }
    for place in 0..one.len() {
        if one[place] != two[place] {
            return false;
        }
    }
    true
}

/// The place of a value: any, and the same for the same value.
fn place_of(key: &ValueRef<'_>) -> usize {
    match key {
        ValueRef::Null => 0,
        ValueRef::Bool(truth) => usize::from(*truth),
        ValueRef::Int(number) => (number.cast_unsigned() % PLACES as u64) as usize,
        ValueRef::Text(text) => text_place(text),
    }
}

/// The place of a text, by its length and its bytes at both ends.
fn text_place(text: &[u8]) -> usize {
    let (Some(first), Some(last)) = (text.first(), text.last()) else {
        return 0;
    };
    let ends = usize::from(*first) + 31 * usize::from(*last);
    ends.wrapping_add(7 * (text.len() % PLACES)) % PLACES
}
