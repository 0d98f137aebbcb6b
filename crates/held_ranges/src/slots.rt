//! Slots that hold nothing: they are made, and freed.
ghost use Rattle.std.specs.Prelude.{◌≡◌, ◌+◌, ℕ, None, length, IfOk, IsTrue};
ghost use Rattle.buffer_pool.specs.Pools.{IsSeatOf};
ghost use Rattle.held_ranges.specs.Moments.{AreEmpty};
ghost use Rattle.range_cache.specs.Caches.{pool_of};

use crate::Held;
use outside::{NoMemory, World};
use range_cache::{Cache, PoolSeat};
use std::alloc::{AllocFailed, Global};

/// Lets go of a slot that holds nothing.
fn free_slot<W: World>(cache: &Cache<W>, seat: &mut PoolSeat<W>, slot: Option<Held>)
    requires seat { IsSeatOf (pool_of cache.now) seat.old }
    requires empty { slot ≡ None }
    ensures seat { seat.new ≡ seat.old }
{
    // There is none: a range can't be let go in any other way.
    if let Some(held) = slot {
        let Held { key: _, ranged } = held;
        ranged.done(cache, seat);
    }
}

/// Adds a slot that holds nothing, or answers that memory was refused.
fn push_empty<W: World>(
    cache: &Cache<W>,
    seat: &mut PoolSeat<W>,
    slots: &mut Vec<Option<Held>>,
) -> bool
    requires seat { IsSeatOf (pool_of cache.now) seat.old }
    requires empty { AreEmpty slots.old.items }
    ensures seat { seat.new ≡ seat.old }
    ensures empty { AreEmpty slots.new.items }
    ensures more { IsTrue result → length slots.new.items ≡ length slots.old.items + 1 }
{
    match slots.push(None) {
        Ok(()) => true,
        Err(AllocFailed { value }) => {
            free_slot(cache, seat, value);
            false
        }
    }
}

/// Frees slots that hold nothing. Neither the cache nor the seat is used.
pub fn free_slots<W: World>(cache: &Cache<W>, seat: &mut PoolSeat<W>, mut slots: Vec<Option<Held>>)
    requires seat { IsSeatOf (pool_of cache.now) seat.old }
    requires empty { AreEmpty slots.items }
    ensures seat { seat.new ≡ seat.old }
{
    while let Some(slot) = slots.pop() {
        free_slot(cache, seat, slot);
    }
    slots.destroy_empty();
}

/// So many slots that hold nothing; `NoMemory` where memory was refused. Neither the cache nor the seat is used.
pub fn empty_slots<W: World>(
    alloc: Global,
    cache: &Cache<W>,
    seat: &mut PoolSeat<W>,
    count: usize,
) -> Result<Vec<Option<Held>>, NoMemory>
    requires seat { IsSeatOf (pool_of cache.now) seat.old }
    ensures seat { seat.new ≡ seat.old }
    ensures count { IfOk result (λ slots. length slots.items ≡ count) }
    ensures empty { IfOk result (λ slots. AreEmpty slots.items) }
{
    let mut slots = Vec::new(alloc);
    while slots.len() < count {
        if !push_empty(cache, seat, &mut slots) {
            free_slots(cache, seat, slots);
            return Err(NoMemory);
        }
    }
    Ok(slots)
}
