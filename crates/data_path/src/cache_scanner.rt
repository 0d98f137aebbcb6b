//! Scans through the shared cache.
ghost use Rattle.std.specs.Prelude.{◌≡◌, ℕ};
ghost use Rattle.pool_rule.specs.declared.view.Hold.TheVariants.{Free};
ghost use Rattle.pool_rule.specs.Seats.{mark_at};
ghost use Rattle.buffer_pool.specs.Pools.{IsSeatOf, sizes_of, view};
ghost use Rattle.range_cache.specs.Caches.{pool_of};
ghost use Rattle.evicting_fetch.specs.Evictors.{IsEvictorOf};
ghost use Rattle.io_elevator.specs.Scratch.{IsFreshFor};
ghost use Rattle.scan_inline.specs.Counts.{HaveFit};

use evicting_fetch::Evictor;
use fragment_outcome::Outcome;
use fragment_plan::Plan;
use io_elevator::Scratch;
use ledgers::CacheTotals;
use outside::{NoMemory, Store, World};
use plan_run::Scanner;
use range_cache::{Cache, PoolSeat};
use scan_inline::{counts_fit, scan_with};
use std::alloc::Global;

/// Scans the files of a store, which it borrows, and reads them through a cache, by a seat of it that has no pin between scans, and in
/// scratch memory in which nothing is held between scans. It counts how the ranges were got.
#[derive(Drop)]
pub struct CacheScanner<'a, W: World, S: Store<W>> {
    /// The cache.
    pub cache: &'a Cache<W>,
    /// The seat.
    pub seat: &'a mut PoolSeat<W>,
    /// What decides the cache's evictions.
    pub evictor: &'a mut Evictor,
    /// The store.
    pub store: &'a mut S,
    /// The scratch.
    pub scratch: &'a mut Scratch<W>,
    /// The counts.
    pub totals: &'a mut CacheTotals,
    pub ghost of_cache: { IsSeatOf (pool_of cache.now) seat.now },
    pub ghost no_pin: { (header : ℕ) → (mark_at (view seat.now) header).hold ≡ Free },
    pub ghost evicts: { IsEvictorOf (pool_of cache.now) evictor.now },
    pub ghost fresh: { IsFreshFor (sizes_of (pool_of cache.now)) scratch.now },
    pub ghost fit: { HaveFit totals.now },
}

impl<'a, W: World, S: Store<W>> CacheScanner<'a, W, S> {
    /// A scanner through that cache by that seat, in front of that store, which evicts by that evictor, works in that scratch and counts
    /// into those totals.
    ///
    /// The seat is one of the cache's and has no pin; the evictor is one of the cache's; in the scratch, which is for that cache, nothing
    /// is held.
    pub fn new(
        cache: &'a Cache<W>,
        seat: &'a mut PoolSeat<W>,
        evictor: &'a mut Evictor,
        store: &'a mut S,
        scratch: &'a mut Scratch<W>,
        totals: &'a mut CacheTotals,
    ) -> CacheScanner<'a, W, S>
        requires seat { IsSeatOf (pool_of cache.now) seat.old }
        requires no_pin { (header : ℕ) → (mark_at (view seat.old) header).hold ≡ Free }
        requires evictor { IsEvictorOf (pool_of cache.now) evictor.old }
        requires fresh { IsFreshFor (sizes_of (pool_of cache.now)) scratch.old }
        ensures cache { result.cache.now ≡ cache.now }
        ensures seat_name { result.seat.ghost_name ≡ seat.entry.ghost_name }
        ensures seat { result.seat.now ≡ seat.old }
        ensures evictor_name { result.evictor.ghost_name ≡ evictor.entry.ghost_name }
        ensures evictor { result.evictor.now ≡ evictor.old }
        ensures scratch_name { result.scratch.ghost_name ≡ scratch.entry.ghost_name }
        ensures scratch { result.scratch.now ≡ scratch.old }
        ensures store_name { result.store.ghost_name ≡ store.entry.ghost_name }
        ensures store { result.store.now ≡ store.old }
        ensures totals_name { result.totals.ghost_name ≡ totals.entry.ghost_name }
        ensures totals { result.totals.now ≡ totals.old }
    {
        counts_fit(totals);
        CacheScanner {
            cache,
            seat,
            evictor,
            store,
            scratch,
            totals,
        }
    }
}

impl<'a, W: World, S: Store<W>> Scanner<W> for CacheScanner<'a, W, S> {
    ghost use Rattle.data_path.specs.Scanners.{HasScanned, IsSameScanner, same_on, same_scanner};

    ghost fault_count = { λ r. S.fault_count r.store.now };

    ghost same = { λ first last. IsSameScanner W.files S.reads first last };

    ghost scanned = { λ first plan number o last. HasScanned W.files S.reads first plan number o last };

    ghost same_as_itself = { λ r. same_scanner W.files S.reads r };

    ghost same_on = { λ first between last p q. same_on W.files S.reads first between last p q };

    fn scan(&mut self, alloc: Global, plan: &Plan, fragment: u32) -> Result<Outcome, NoMemory> {
        scan_with(
            alloc,
            self.cache,
            self.seat,
            self.evictor,
            self.store,
            self.scratch,
            plan,
            fragment,
            self.totals,
        )
    }
}
