//! Scans of one file through a cache.
ghost use Rattle.std.specs.Prelude.{◌≡◌, ℕ};
ghost use Rattle.pool_rule.specs.declared.view.Hold.TheVariants.{Free};
ghost use Rattle.pool_rule.specs.Seats.{mark_at};
ghost use Rattle.buffer_pool.specs.Pools.{IsSeatOf, view};
ghost use Rattle.range_cache.specs.Caches.{pool_of};
ghost use Rattle.evicting_fetch.specs.Evictors.{IsEvictorOf};

use crate::one_file::{OneFile, printed, printed_past};
use evicting_fetch::Evictor;
use fragment_plan::{Plan, Work};
use ledgers::CacheTotals;
use outside::{MemorySink, RealWorld};
use range_cache::{Cache, PoolSeat};
use scan_inline::scan_inline;
use std::alloc::Global;

/// What is printed of a scan of the store's file through a cache, as a plan's fragment asks it. The seat has no pin before and after.
fn printed_through(
    alloc: Global,
    cache: &Cache<RealWorld>,
    seat: &mut PoolSeat<RealWorld>,
    evictor: &mut Evictor,
    store: &mut OneFile<'_>,
    totals: &mut CacheTotals,
    plan: &Plan,
    fragment: u32,
) -> Option<MemorySink>
    requires seat { IsSeatOf (pool_of cache.now) seat.old }
    requires no_pin { (header : ℕ) → (mark_at (view seat.old) header).hold ≡ Free }
    requires evictor { IsEvictorOf (pool_of cache.now) evictor.old }
    ensures seat { IsSeatOf (pool_of cache.now) seat.new }
    ensures no_pin { (header : ℕ) → (mark_at (view seat.new) header).hold ≡ Free }
    ensures evictor { IsEvictorOf (pool_of cache.now) evictor.new }
{
    let Work::Scan(_) = &plan.fragments().get(fragment as usize)?.work else {
        return None;
    };
    match scan_inline(alloc, cache, seat, evictor, store, plan, fragment, totals) {
        Ok(outcome) => printed(alloc, plan, fragment, &outcome),
        Err(_) => None,
    }
}

/// Whether that was printed, or a read fault in its place.
fn ends(found: &MemorySink, wanted: &MemorySink, fails: bool) -> bool {
    match (found.written(), wanted.written()) {
        (Some(found), Some(wanted)) => {
            (fails && found.ends_with(b" failed read fault\n")) || (!fails && found == wanted)
        }
        _ => false,
    }
}

/// Whether a scan of the store's file through a cache prints what a scan past the cache prints, or that a read failed.
pub fn scans(
    alloc: Global,
    cache: &Cache<RealWorld>,
    seat: &mut PoolSeat<RealWorld>,
    evictor: &mut Evictor,
    store: &mut OneFile<'_>,
    totals: &mut CacheTotals,
    plan: &Plan,
    fragment: u32,
    fails: bool,
) -> bool
    requires seat { IsSeatOf (pool_of cache.now) seat.old }
    requires no_pin { (header : ℕ) → (mark_at (view seat.old) header).hold ≡ Free }
    requires evictor { IsEvictorOf (pool_of cache.now) evictor.old }
    ensures seat { IsSeatOf (pool_of cache.now) seat.new }
    ensures no_pin { (header : ℕ) → (mark_at (view seat.new) header).hold ≡ Free }
    ensures evictor { IsEvictorOf (pool_of cache.now) evictor.new }
{
    match printed_through(alloc, cache, seat, evictor, store, totals, plan, fragment) {
        Some(found) => match printed_past(alloc, store.bytes, plan, fragment) {
            Some(wanted) => ends(&found, &wanted, fails),
            None => false,
        },
        None => false,
    }
}
