//! A range is got for a slot in place of what it held.
ghost use Rattle.std.specs.Prelude.{◌≡◌, ◌≢◌, ◌*◌, ◌<◌, ◌≤◌, ℕ, length, None, Some, OnErr, OnOk};
ghost use Rattle.buffer_word.specs.KeyWord.{IsKey};
ghost use Rattle.outside.specs.Cause.{HasCause};
ghost use Rattle.outside.specs.Files.{IsFile};
ghost use Rattle.pool_rule.specs.declared.view.Hold.TheVariants.{Free};
ghost use Rattle.pool_rule.specs.Seats.{mark_at};
ghost use Rattle.buffer_pool.specs.Pools.{IsContentOf, buffer_key, sizes_of, view};
ghost use Rattle.range_cache.specs.Caches.{pool_of};
ghost use Rattle.range_cache.specs.Fetches.{IsOfFile};
ghost use Rattle.held_ranges.specs.Deeds.{drops_each, key_at, room_for, room_left, swap_fails, swapped, swaps};
ghost use Rattle.held_ranges.specs.Moments.{DeskHolds, Ran, keys_of, moment, slot_at};

use crate::getting::get;
use crate::leaving::{let_go, let_go_from};
use crate::{Desk, Held};
use outside::{Failed, FileRef, Store, World};
use range_cache::Key;

/// Lets go of what a slot holds, and then of what other slots hold of a key, so that the key can be got for the slot.
fn make_room<W: World, S: Store<W>>(
    desk: &mut Desk<'_, W, S>,
    slots: &mut Vec<Option<Held>>,
    slot: usize,
    key: Key,
)
    requires holding { DeskHolds (moment desk.old slots.old.items) }
    requires slot { slot < length slots.old.items }
    ensures holding { DeskHolds (moment desk.new slots.new.items) }
    ensures went { Ran W.files S.reads (moment desk.old slots.old.items) (room_for slot key (keys_of slots.old.items))
        (moment desk.new slots.new.items) }
    ensures keys { keys_of slots.new.items ≡ room_left slot key (keys_of slots.old.items) }
    ensures empty { slot_at slots.new.items slot ≡ None }
    ensures new { (other : ℕ) → key_at (keys_of slots.new.items) other ≢ Some key }
    ensures store { desk.new.store.now ≡ desk.old.store.now }
    ensures cache { desk.new.cache.now ≡ desk.old.cache.now }
    ensures evictor { desk.new.evictor.now ≡ desk.old.evictor.now }
    ensures count { length slots.new.items ≡ length slots.old.items }
{
    let_go(desk, slots, slot);
    let_go_from(desk, slots, Some(key), 0);
}

/// Gets a range of a file for a slot, which holds it from then on, in place of what it held.
///
/// What the slot holds is let go first, and so is what another slot holds of the same key. The key is a range of the file, of at most
/// `64 * min_block` bytes; `scratch` has its length, and its bytes after `Ok`.
///
/// `Failed` comes only where the store's count of faults rose in this call, and then the slot holds nothing. No memory is taken.
pub fn swap<W: World, S: Store<W>>(
    desk: &mut Desk<'_, W, S>,
    slots: &mut Vec<Option<Held>>,
    slot: usize,
    key: Key,
    file: FileRef,
    scratch: &mut [u8],
) -> Result<(), Failed>
    requires holding { DeskHolds (moment desk.old slots.old.items) }
    requires slot { slot < length slots.old.items }
    requires key { IsKey key }
    requires file { IsOfFile key file }
    requires is_file { IsFile W.files file }
    requires fits { key.len ≤ 64 * (sizes_of (pool_of desk.old.cache.now)).min_block }
    requires scratch { length scratch.old ≡ key.len }
    ensures holding { DeskHolds (moment desk.new slots.new.items) }
    ensures got { OnOk result (Ran W.files S.reads (moment desk.old slots.old.items) (swaps slot key (keys_of slots.old.items))
        (moment desk.new slots.new.items)) }
    ensures keys { OnOk result (keys_of slots.new.items ≡ swapped slot key (keys_of slots.old.items)) }
    ensures missed { OnErr result (Ran W.files S.reads (moment desk.old slots.old.items) (swap_fails slot key (keys_of slots.old.items))
        (moment desk.new slots.new.items)) }
    ensures left { OnErr result (keys_of slots.new.items ≡ room_left slot key (keys_of slots.old.items)) }
    ensures count { length slots.new.items ≡ length slots.old.items }
    ensures len { length scratch.new ≡ length scratch.old }
    ensures bytes { OnOk result (IsContentOf W.files (buffer_key key) scratch.new) }
    ensures cause { HasCause (S.fault_count desk.old.store.now) (S.fault_count desk.new.store.now) result }
{
    make_room(desk, slots, slot, key);
    get(desk, slots, slot, key, file, scratch)
}

/// Lets go of all that slots hold.
pub fn let_go_all<W: World, S: Store<W>>(desk: &mut Desk<'_, W, S>, slots: &mut Vec<Option<Held>>)
    requires holding { DeskHolds (moment desk.old slots.old.items) }
    ensures holding { DeskHolds (moment desk.new slots.new.items) }
    ensures went { Ran W.files S.reads (moment desk.old slots.old.items) (drops_each None 0 (keys_of slots.old.items))
        (moment desk.new slots.new.items) }
    ensures empty { (slot : ℕ) → slot_at slots.new.items slot ≡ None }
    ensures no_pin { (header : ℕ) → (mark_at (view desk.new.seat.now) header).hold ≡ Free }
    ensures store { desk.new.store.now ≡ desk.old.store.now }
    ensures cache { desk.new.cache.now ≡ desk.old.cache.now }
    ensures evictor { desk.new.evictor.now ≡ desk.old.evictor.now }
    ensures count { length slots.new.items ≡ length slots.old.items }
{
    let_go_from(desk, slots, None, 0);
}
