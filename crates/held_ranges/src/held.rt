//! A range that is held.
ghost use Rattle.std.specs.Prelude.{◌≡◌, ◌<◌, None, Some, length, slice_set};
ghost use Rattle.buffer_pool.specs.Pools.{IsSeatOf};
ghost use Rattle.range_cache.specs.Caches.{pool_of};
ghost use Rattle.held_ranges.specs.Deeds.{key_eq};
ghost use Rattle.held_ranges.specs.Moments.{slot_at};

use outside::World;
use range_cache::{Cache, Key, PoolSeat, Ranged};

/// A range that was got, with its key.
pub struct Held {
    pub(crate) key: Key,
    pub(crate) ranged: Ranged,
}

/// Whether two keys are one. Where they begin is compared first: most keys of one file differ there.
pub fn are_same(a: Key, b: Key) -> bool
    ensures { result ≡ key_eq a b }
{
    a.at == b.at && a.file == b.file && a.len == b.len
}

/// Puts a range into a slot, which holds nothing.
pub(crate) fn put<W: World>(
    cache: &Cache<W>,
    seat: &mut PoolSeat<W>,
    slots: &mut Vec<Option<Held>>,
    slot: usize,
    held: Held,
)
    requires seat { IsSeatOf (pool_of cache.now) seat.old }
    requires slot { slot < length slots.old.items }
    requires empty { slot_at slots.old.items slot ≡ None }
    ensures seat { seat.new ≡ seat.old }
    ensures slots { slots.new.items ≡ slice_set slots.old.items slot (Some held) }
{
    let old = slots[slot].replace(held);
    // There is none: a range can't be let go in any other way.
    if let Some(old) = old {
        let Held { key: _, ranged } = old;
        ranged.done(cache, seat);
    }
}

/// Takes what a slot holds out of it.
pub(crate) fn take_slot(slots: &mut Vec<Option<Held>>, slot: usize) -> Option<Held>
    requires slot { slot < length slots.old.items }
    ensures held { result ≡ slot_at slots.old.items slot }
    ensures slots { slots.new.items ≡ slice_set slots.old.items slot None }
{
    slots[slot].take()
}
