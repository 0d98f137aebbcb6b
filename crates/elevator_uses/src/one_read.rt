//! A range of a file is read through a cache, by a seat without pins, which has none afterwards.
ghost use Rattle.std.specs.Prelude.{◌≡◌, ◌<◌, ◌≤◌, ◌+◌, ℕ, List, length, slice_range, IfOk, OnOk};
ghost use Rattle.outside.specs.Cause.{HasCause};
ghost use Rattle.outside.specs.Files.{HasBytes, IsFile};
ghost use Rattle.pool_rule.specs.declared.view.Hold.TheVariants.{Free};
ghost use Rattle.pool_rule.specs.Seats.{mark_at};
ghost use Rattle.buffer_pool.specs.Pools.{IsSeatOf, sizes_of, view};
ghost use Rattle.range_cache.specs.Caches.{pool_of};
ghost use Rattle.evicting_fetch.specs.Evictors.{IsEvictorOf};
ghost use Rattle.io_elevator.specs.Scratch.{IsFreshFor, IsIdle};

use evicting_fetch::Evictor;
use io_elevator::{Elevator, Scratch};
use ledgers::CacheTotals;
use outside::{Failed, FileRef, RangeReader, Store, World};
use range_cache::{Cache, PoolSeat};

/// Reads a range of a file through a cache, from `at` on, to fill `into`, and lets all go.
pub fn read_range<W: World, S: Store<W>>(
    cache: &Cache<W>,
    seat: &mut PoolSeat<W>,
    evictor: &mut Evictor,
    store: &mut S,
    totals: &mut CacheTotals,
    scratch: &mut Scratch<W>,
    file: FileRef,
    at: u64,
    into: &mut [u8],
) -> Result<(), Failed>
    requires seat { IsSeatOf (pool_of cache.now) seat.old }
    requires no_pin { (header : ℕ) → (mark_at (view seat.old) header).hold ≡ Free }
    requires evictor { IsEvictorOf (pool_of cache.now) evictor.old }
    requires fresh { IsFreshFor (sizes_of (pool_of cache.now)) scratch.old }
    requires in_range { at + length into.old ≤ file.len }
    requires number { file.number < 4096 }
    requires len { file.len ≤ 4294967295 }
    requires is_file { IsFile W.files file }
    ensures seat { IsSeatOf (pool_of cache.now) seat.new }
    ensures no_pin { (header : ℕ) → (mark_at (view seat.new) header).hold ≡ Free }
    ensures evictor { IsEvictorOf (pool_of cache.now) evictor.new }
    ensures idle { IsIdle scratch.new }
    ensures bytes { OnOk result ((bytes : List ℕ) → HasBytes W.files file bytes
        → into.new ≡ slice_range bytes at (at + length into.new)) }
    ensures cause { HasCause (S.fault_count store.old) (S.fault_count store.new) result }
{
    let mut elevator = Elevator::new(cache, seat, evictor, store, totals, scratch);
    let answer = elevator.read(file, at, into);
    elevator.end();
    answer
}
