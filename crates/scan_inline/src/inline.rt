//! The scan of a fragment over the files of a store, through the cache.
ghost use Rattle.std.specs.Prelude.{◌≡◌, ◌≢◌, ℕ, Some, Ok, IsSome, IfOk};
ghost use Rattle.outside.specs.Cause.{Cause};
ghost use Rattle.outside.specs.Files.{Files};
ghost use Rattle.pool_rule.specs.declared.view.Hold.TheVariants.{Free};
ghost use Rattle.pool_rule.specs.Seats.{mark_at};
ghost use Rattle.buffer_pool.specs.Pools.{IsSeatOf, sizes_of, view};
ghost use Rattle.range_cache.specs.Caches.{pool_of};
ghost use Rattle.evicting_fetch.specs.Evictors.{IsEvictorOf};
ghost use Rattle.fragment_plan.specs.declared.fragment.Scan.{Scan};
ghost use Rattle.fragment_outcome.specs.declared.failure.Failure.TheVariants as failure;
ghost use Rattle.fragment_folds.specs.Scans.{scan_at};
ghost use Rattle.fragment_meaning.specs.ScanOutcome.{failed, ScanMeans};
ghost use Rattle.fragment_scan.specs.Outcomes.{IsOutcomeFor};
ghost use Rattle.io_elevator.specs.Scratch.{IsFreshFor};
ghost use Rattle.held_ranges.specs.Counts.{AreStepsCounted};
ghost use Rattle.scan_inline.specs.Counts.{AreCounted};
ghost use Rattle.scan_inline.specs.Through.{ScansThrough, standing};

use crate::through::{counts_fit, scan_through};
use evicting_fetch::Evictor;
use fragment_outcome::{Failure, Outcome};
use fragment_plan::{Plan, Scan, Work};
use io_elevator::Scratch;
use ledgers::CacheTotals;
use outside::{NoMemory, Store, World};
use range_cache::{Cache, PoolSeat};
use std::alloc::Global;

/// The scan that a fragment is.
fn scan_of(plan: &Plan, fragment: u32) -> &Scan
    requires { IsSome (scan_at plan.now fragment) }
    ensures { scan_at plan.now fragment ≡ Some result.now }
{
    match &plan.fragments()[fragment as usize].work {
        Work::Scan(scan) => scan,
        Work::Merge(_) => unreachable!(),
    }
}

/// Scans a file of a store, as a fragment of a plan that is a scan asks it: it finds the file by its name, and reads it through a cache,
/// in the caller's scratch memory.
///
/// The seat is one of the cache's and has no pin, before and after, whatever is answered. The evictor is one of the cache's. The scratch
/// is for that cache, and nothing is held in it, before and after: so it serves the next scan.
///
/// The outcome is `NoFile` where no file has the name. Where the store's files are told, the outcome is what the scan means, unless it is
/// `ReadFault`, which comes only where the store's faults rose in this call. An answer is of the form of the scan's fold, and a failure is
/// none of a merge. `NoMemory` comes only where memory was refused.
///
/// No count falls. Where the store tells its reads, fills and bypasses grow by as many as there are more, unless one of the two stands at
/// its last value. Fills grow by the buffers that the seat published, and evictions by those that it released, unless such a count stands
/// at its last value. All that was done through the cache are deeds that fit the acts of the scan, and none where no file is found.
///
/// Source: Apache ORC specification v1 for what a file has; the outcomes and their order are this project's own.
#[tactic(auto, using(crate::proofs::Growth::none_counted, crate::proofs::Growth::none_stepped))]
pub fn scan_with<W: World, S: Store<W>>(
    alloc: Global,
    cache: &Cache<W>,
    seat: &mut PoolSeat<W>,
    evictor: &mut Evictor,
    store: &mut S,
    scratch: &mut Scratch<W>,
    plan: &Plan,
    fragment: u32,
    totals: &mut CacheTotals,
) -> Result<Outcome, NoMemory>
    requires seat { IsSeatOf (pool_of cache.now) seat.old }
    requires no_pin { (header : ℕ) → (mark_at (view seat.old) header).hold ≡ Free }
    requires evictor { IsEvictorOf (pool_of cache.now) evictor.old }
    requires fresh { IsFreshFor (sizes_of (pool_of cache.now)) scratch.old }
    requires scan { IsSome (scan_at plan.now fragment) }
    ensures seat { IsSeatOf (pool_of cache.now) seat.new }
    ensures no_pin { (header : ℕ) → (mark_at (view seat.new) header).hold ≡ Free }
    ensures evictor { IsEvictorOf (pool_of cache.now) evictor.new }
    ensures fresh { IsFreshFor (sizes_of (pool_of cache.now)) scratch.new }
    ensures means { IfOk result (λ o. (files : Files) (scan : Scan) → W.files ≡ Some files → scan_at plan.now fragment ≡ Some scan
        → o ≢ failed failure.ReadFault → ScanMeans files scan o) }
    ensures is_for { IfOk result (λ o. (scan : Scan) → scan_at plan.now fragment ≡ Some scan → IsOutcomeFor scan o) }
    ensures cause { Cause (S.fault_count store.old) (S.fault_count store.new) (result ≡ Ok (failed failure.ReadFault)) }
    ensures counted { AreCounted (S.reads store.old) (S.reads store.new) totals.old totals.new }
    ensures steps { AreStepsCounted W.files (pool_of cache.now) seat.old seat.new totals.old totals.new }
    ensures did { (scan : Scan) → scan_at plan.now fragment ≡ Some scan → ScansThrough W.files cache.now scan
        (standing seat.old evictor.old (S.reads store.old) totals.old) (standing seat.new evictor.new (S.reads store.new) totals.new)
        result }
{
    counts_fit(totals);
    let found = match store.find(scan_of(plan, fragment).file.as_str()) {
        Ok(Some(found)) => found,
        Ok(None) => return Ok(Outcome::Failure(Failure::NoFile)),
        Err(_) => return Ok(Outcome::Failure(Failure::ReadFault)),
    };
    scan_through(
        alloc, cache, seat, evictor, store, totals, scratch, found, plan, fragment,
    )
}

/// Does what `scan_with` does, in scratch memory that it makes before, and frees. Nothing is read where memory for that is refused.
#[tactic(auto, using(crate::proofs::Growth::none_counted, crate::proofs::Growth::none_stepped))]
pub fn scan_inline<W: World, S: Store<W>>(
    alloc: Global,
    cache: &Cache<W>,
    seat: &mut PoolSeat<W>,
    evictor: &mut Evictor,
    store: &mut S,
    plan: &Plan,
    fragment: u32,
    totals: &mut CacheTotals,
) -> Result<Outcome, NoMemory>
    requires seat { IsSeatOf (pool_of cache.now) seat.old }
    requires no_pin { (header : ℕ) → (mark_at (view seat.old) header).hold ≡ Free }
    requires evictor { IsEvictorOf (pool_of cache.now) evictor.old }
    requires scan { IsSome (scan_at plan.now fragment) }
    ensures seat { IsSeatOf (pool_of cache.now) seat.new }
    ensures no_pin { (header : ℕ) → (mark_at (view seat.new) header).hold ≡ Free }
    ensures evictor { IsEvictorOf (pool_of cache.now) evictor.new }
    ensures means { IfOk result (λ o. (files : Files) (scan : Scan) → W.files ≡ Some files → scan_at plan.now fragment ≡ Some scan
        → o ≢ failed failure.ReadFault → ScanMeans files scan o) }
    ensures is_for { IfOk result (λ o. (scan : Scan) → scan_at plan.now fragment ≡ Some scan → IsOutcomeFor scan o) }
    ensures cause { Cause (S.fault_count store.old) (S.fault_count store.new) (result ≡ Ok (failed failure.ReadFault)) }
    ensures counted { AreCounted (S.reads store.old) (S.reads store.new) totals.old totals.new }
    ensures steps { AreStepsCounted W.files (pool_of cache.now) seat.old seat.new totals.old totals.new }
    ensures did { (scan : Scan) → scan_at plan.now fragment ≡ Some scan → ScansThrough W.files cache.now scan
        (standing seat.old evictor.old (S.reads store.old) totals.old) (standing seat.new evictor.new (S.reads store.new) totals.new)
        result }
{
    counts_fit(totals);
    let mut scratch = match Scratch::new(alloc, cache, seat) {
        Ok(scratch) => scratch,
        Err(NoMemory) => return Err(NoMemory),
    };
    let outcome = scan_with(
        alloc,
        cache,
        seat,
        evictor,
        store,
        &mut scratch,
        plan,
        fragment,
        totals,
    );
    scratch.free(cache, seat);
    outcome
}
