//! What slots hold is let go.
ghost use Rattle.std.specs.Prelude.{◌≡◌, ◌<◌, ◌≤◌, ◌++◌, ℕ, false, true, take, drop, length, None, slice_set};
ghost use Rattle.held_ranges.specs.Deeds.{dropped, drops_each, key_at, left_of, means};
ghost use Rattle.held_ranges.specs.Moments.{DeskHolds, IsDropped, Ran, keys_of, moment};
ghost use Rattle.buffer_pool.specs.Pools.{IsSeatOf};
ghost use Rattle.range_cache.specs.Caches.{pool_of};
ghost use Rattle.range_cache.specs.Ranges.{IsRanged};

use crate::held::take_slot;
use crate::{Desk, Held, are_same};
use outside::{Store, World};
use range_cache::Key;

/// Lets a range go.
fn drop_range<W: World, S: Store<W>>(desk: &mut Desk<'_, W, S>, held: Held)
    requires seat { IsSeatOf (pool_of desk.old.cache.now) desk.old.seat.now }
    requires ranged { IsRanged (pool_of desk.old.cache.now) desk.old.seat.now held.ranged }
    ensures seat { IsSeatOf (pool_of desk.old.cache.now) desk.new.seat.now }
    ensures dropped { IsDropped W.files S.reads held desk.old desk.new }
{
    let Held { key: _, ranged } = held;
    ranged.done(desk.cache, desk.seat);
}

/// Lets go of what a slot holds, if it holds something.
pub fn let_go<W: World, S: Store<W>>(
    desk: &mut Desk<'_, W, S>,
    slots: &mut Vec<Option<Held>>,
    slot: usize,
)
    requires holding { DeskHolds (moment desk.old slots.old.items) }
    requires slot { slot < length slots.old.items }
    ensures holding { DeskHolds (moment desk.new slots.new.items) }
    ensures went { Ran W.files S.reads (moment desk.old slots.old.items) (dropped slot (key_at (keys_of slots.old.items) slot))
        (moment desk.new slots.new.items) }
    ensures keys { keys_of slots.new.items ≡ slice_set (keys_of slots.old.items) slot None }
    ensures store { desk.new.store.now ≡ desk.old.store.now }
    ensures cache { desk.new.cache.now ≡ desk.old.cache.now }
    ensures evictor { desk.new.evictor.now ≡ desk.old.evictor.now }
    ensures count { length slots.new.items ≡ length slots.old.items }
{
    match take_slot(slots, slot) {
        None => {}
        Some(held) => drop_range(desk, held),
    }
}

/// Whether a slot holds a key that is meant: that key, or any.
#[tactic(auto, using(crate::proofs::Holding::key_is))]
fn is_meant(slots: &Vec<Option<Held>>, slot: usize, of: Option<Key>) -> bool
    requires { slot < length slots.now.items }
    ensures { result ≡ means of (key_at (keys_of slots.now.items) slot) }
{
    match &slots[slot] {
        None => false,
        Some(held) => match of {
            None => true,
            Some(key) => are_same(held.key, key),
        },
    }
}

/// The first slot, from one on, that holds a key that is meant; where none does, the number of slots, or that one if it lies behind.
///
/// Most slots hold another key, or none, and a swap looks at them all: this passes over them without a call for each.
fn next_meant(slots: &Vec<Option<Held>>, of: Option<Key>, slot: usize) -> usize
    ensures from { slot ≤ result }
    ensures within { slot ≤ length slots.now.items → result ≤ length slots.now.items }
    ensures passed { (i : ℕ) → slot ≤ i → i < result → means of (key_at (keys_of slots.now.items) i) ≡ false }
    ensures found { result < length slots.now.items → means of (key_at (keys_of slots.now.items) result) ≡ true }
{
    let mut at = slot;
    while at < slots.len() && !is_meant(slots, at, of) {
        at += 1;
    }
    at
}

/// Lets go of what slots hold of a key, or of all that they hold, from a slot on.
pub(crate) fn let_go_from<W: World, S: Store<W>>(
    desk: &mut Desk<'_, W, S>,
    slots: &mut Vec<Option<Held>>,
    of: Option<Key>,
    slot: usize,
)
    requires holding { DeskHolds (moment desk.old slots.old.items) }
    ensures holding { DeskHolds (moment desk.new slots.new.items) }
    ensures went { Ran W.files S.reads (moment desk.old slots.old.items) (drops_each of slot (drop slot (keys_of slots.old.items)))
        (moment desk.new slots.new.items) }
    ensures keys { keys_of slots.new.items ≡ take slot (keys_of slots.old.items) ++ left_of of (drop slot (keys_of slots.old.items)) }
    ensures store { desk.new.store.now ≡ desk.old.store.now }
    ensures cache { desk.new.cache.now ≡ desk.old.cache.now }
    ensures evictor { desk.new.evictor.now ≡ desk.old.evictor.now }
    ensures count { length slots.new.items ≡ length slots.old.items }
{
    let next = next_meant(slots, of, slot);
    if next < slots.len() {
        let_go(desk, slots, next);
        let_go_from(desk, slots, of, next + 1);
    }
}
