//! The scan of a fragment over a file that was found, through the cache.
ghost use Rattle.std.specs.Prelude.{◌≡◌, ◌<◌, ◌≤◌, ℕ, List, Some, IsSome, IfOk};
ghost use Rattle.outside.specs.Cause.{Cause};
ghost use Rattle.outside.specs.Files.{HasBytes, IsFile};
ghost use Rattle.pool_rule.specs.declared.view.Hold.TheVariants.{Free};
ghost use Rattle.pool_rule.specs.Seats.{mark_at};
ghost use Rattle.buffer_pool.specs.Pools.{IsSeatOf, sizes_of, view};
ghost use Rattle.range_cache.specs.Caches.{pool_of};
ghost use Rattle.evicting_fetch.specs.Evictors.{IsEvictorOf};
ghost use Rattle.fragment_plan.specs.declared.fragment.Scan.{Scan};
ghost use Rattle.fragment_folds.specs.Scans.{scan_at};
ghost use Rattle.fragment_meaning.specs.ScanOutcome.{IsOutcomeOn};
ghost use Rattle.fragment_scan.specs.Outcomes.{IsOutcomeFor};
ghost use Rattle.fragment_scan.specs.Scanned.{IfDecided, IsReadFault, ScanActs};
ghost use Rattle.held_ranges.specs.Counts.{AreStepsCounted, last};
ghost use Rattle.orc_streams.specs.Acts.{Act};
ghost use Rattle.io_elevator.specs.Elevator.{Did};
ghost use Rattle.io_elevator.specs.Scratch.{IsFreshFor, IsIdle};
ghost use Rattle.scan_inline.specs.Counts.{AreCounted, HaveFit};
ghost use Rattle.scan_inline.specs.Through.{ScansFileThrough, standing};

use evicting_fetch::Evictor;
use fragment_outcome::Outcome;
use fragment_plan::Plan;
use fragment_scan::scan_file;
use held_ranges::laws::{reads_are_counted, steps_are_counted};
use io_elevator::{Elevator, Scratch};
use ledgers::CacheTotals;
use outside::{FileRef, NoMemory, Store, World};
use range_cache::{Cache, PoolSeat};
use std::alloc::Global;

/// Scans a file by an elevator, whose references stay what they are.
fn scan_by<W: World, S: Store<W>>(
    alloc: Global,
    elevator: &mut Elevator<'_, W, S>,
    file: FileRef,
    plan: &Plan,
    fragment: u32,
) -> Result<Outcome, NoMemory>
    requires scan { IsSome (scan_at plan.now fragment) }
    requires number { file.number < 4096 }
    requires is_file { IsFile W.files file }
    ensures cache { elevator.new.cache.now ≡ elevator.old.cache.now }
    ensures seat_name { elevator.new.seat.ghost_name ≡ elevator.old.seat.ghost_name }
    ensures evictor_name { elevator.new.evictor.ghost_name ≡ elevator.old.evictor.ghost_name }
    ensures store_name { elevator.new.store.ghost_name ≡ elevator.old.store.ghost_name }
    ensures totals_name { elevator.new.totals.ghost_name ≡ elevator.old.totals.ghost_name }
    ensures scratch_name { elevator.new.scratch.ghost_name ≡ elevator.old.scratch.ghost_name }
    ensures acts { (acts : List Act) × Did W.files S.reads elevator.old acts elevator.new
        × ((scan : Scan) → scan_at plan.now fragment ≡ Some scan → ScanActs W.files file scan acts result) }
    ensures means { (scan : Scan) → scan_at plan.now fragment ≡ Some scan → (bytes : List ℕ) → HasBytes W.files file bytes
        → IfDecided result (IsOutcomeOn scan (Some bytes)) }
    ensures is_for { (scan : Scan) → scan_at plan.now fragment ≡ Some scan → IfOk result (IsOutcomeFor scan) }
    ensures cause { Cause (S.fault_count elevator.old.store.now) (S.fault_count elevator.new.store.now) (IsReadFault result) }
{
    scan_file(alloc, elevator, file, plan, fragment)
}

/// Scans a file by an elevator, and ends the elevator.
fn scan_and_end<W: World, S: Store<W>>(
    alloc: Global,
    elevator: &mut Elevator<'_, W, S>,
    file: FileRef,
    plan: &Plan,
    fragment: u32,
) -> Result<Outcome, NoMemory>
    requires scan { IsSome (scan_at plan.now fragment) }
    requires number { file.number < 4096 }
    requires is_file { IsFile W.files file }
    requires fit { HaveFit elevator.old.totals.now }
    requires idle { IsIdle elevator.old.scratch.now }
    ensures cache { elevator.new.cache.now ≡ elevator.old.cache.now }
    ensures seat_name { elevator.new.seat.ghost_name ≡ elevator.old.seat.ghost_name }
    ensures evictor_name { elevator.new.evictor.ghost_name ≡ elevator.old.evictor.ghost_name }
    ensures store_name { elevator.new.store.ghost_name ≡ elevator.old.store.ghost_name }
    ensures totals_name { elevator.new.totals.ghost_name ≡ elevator.old.totals.ghost_name }
    ensures scratch_name { elevator.new.scratch.ghost_name ≡ elevator.old.scratch.ghost_name }
    ensures seat { IsSeatOf (pool_of elevator.new.cache.now) elevator.new.seat.now }
    ensures no_pin { (header : ℕ) → (mark_at (view elevator.new.seat.now) header).hold ≡ Free }
    ensures evictor { IsEvictorOf (pool_of elevator.new.cache.now) elevator.new.evictor.now }
    ensures fresh { IsFreshFor (sizes_of (pool_of elevator.new.cache.now)) elevator.new.scratch.now }
    ensures idle { IsIdle elevator.new.scratch.now }
    ensures means { (scan : Scan) → scan_at plan.now fragment ≡ Some scan → (bytes : List ℕ) → HasBytes W.files file bytes
        → IfDecided result (IsOutcomeOn scan (Some bytes)) }
    ensures is_for { (scan : Scan) → scan_at plan.now fragment ≡ Some scan → IfOk result (IsOutcomeFor scan) }
    ensures cause { Cause (S.fault_count elevator.old.store.now) (S.fault_count elevator.new.store.now) (IsReadFault result) }
    ensures counted { AreCounted (S.reads elevator.old.store.now) (S.reads elevator.new.store.now)
        elevator.old.totals.now elevator.new.totals.now }
    ensures steps { AreStepsCounted W.files (pool_of elevator.old.cache.now) elevator.old.seat.now elevator.new.seat.now
        elevator.old.totals.now elevator.new.totals.now }
    ensures did { (scan : Scan) → scan_at plan.now fragment ≡ Some scan → ScansFileThrough W.files elevator.old.cache.now file scan
        (standing elevator.old.seat.now elevator.old.evictor.now (S.reads elevator.old.store.now) elevator.old.totals.now)
        (standing elevator.new.seat.now elevator.new.evictor.now (S.reads elevator.new.store.now) elevator.new.totals.now) result }
{
    reads_are_counted::<W, S>();
    steps_are_counted::<W, S>();
    let outcome = scan_by(alloc, elevator, file, plan, fragment);
    elevator.end();
    outcome
}

/// A count is a number of 64 bits.
fn count_fits(count: u64)
    ensures { count ≤ last }
{}

/// The counts of how ranges were got are numbers of 64 bits each: a law, by a function that does nothing.
pub fn counts_fit(totals: &CacheTotals)
    ensures { HaveFit totals.now }
{
    count_fits(totals.hit);
    count_fits(totals.filled);
    count_fits(totals.bypass);
    count_fits(totals.evicted);
    count_fits(totals.moved);
}

/// Scans a file through a cache, as a fragment of a plan that is a scan asks it.
///
/// The seat is one of the cache's and has no pin, before and after; the evictor is one of the cache's; in the scratch, which is for that
/// cache, nothing is held, before and after, so it serves the next scan. Where the file is told, the outcome is the scan's on the file's
/// bytes, unless it is `ReadFault`, which comes only where the store's faults rose in this call.
///
/// No count falls. Where the store tells its reads, fills and bypasses grow by as many as there are more, unless one of the two stands at
/// its last value. Fills grow by the buffers that the seat published, and evictions by those that it released, unless such a count stands
/// at its last value. All that was done are deeds that fit the acts of the scan, and what they left is let go. `NoMemory` comes only where
/// memory was refused.
pub fn scan_through<W: World, S: Store<W>>(
    alloc: Global,
    cache: &Cache<W>,
    seat: &mut PoolSeat<W>,
    evictor: &mut Evictor,
    store: &mut S,
    totals: &mut CacheTotals,
    scratch: &mut Scratch<W>,
    file: FileRef,
    plan: &Plan,
    fragment: u32,
) -> Result<Outcome, NoMemory>
    requires seat { IsSeatOf (pool_of cache.now) seat.old }
    requires no_pin { (header : ℕ) → (mark_at (view seat.old) header).hold ≡ Free }
    requires evictor { IsEvictorOf (pool_of cache.now) evictor.old }
    requires fresh { IsFreshFor (sizes_of (pool_of cache.now)) scratch.old }
    requires scan { IsSome (scan_at plan.now fragment) }
    requires number { file.number < 4096 }
    requires is_file { IsFile W.files file }
    ensures seat { IsSeatOf (pool_of cache.now) seat.new }
    ensures no_pin { (header : ℕ) → (mark_at (view seat.new) header).hold ≡ Free }
    ensures evictor { IsEvictorOf (pool_of cache.now) evictor.new }
    ensures fresh { IsFreshFor (sizes_of (pool_of cache.now)) scratch.new }
    ensures idle { IsIdle scratch.new }
    ensures means { (scan : Scan) → scan_at plan.now fragment ≡ Some scan → (bytes : List ℕ) → HasBytes W.files file bytes
        → IfDecided result (IsOutcomeOn scan (Some bytes)) }
    ensures is_for { (scan : Scan) → scan_at plan.now fragment ≡ Some scan → IfOk result (IsOutcomeFor scan) }
    ensures cause { Cause (S.fault_count store.old) (S.fault_count store.new) (IsReadFault result) }
    ensures counted { AreCounted (S.reads store.old) (S.reads store.new) totals.old totals.new }
    ensures steps { AreStepsCounted W.files (pool_of cache.now) seat.old seat.new totals.old totals.new }
    ensures did { (scan : Scan) → scan_at plan.now fragment ≡ Some scan → ScansFileThrough W.files cache.now file scan
        (standing seat.old evictor.old (S.reads store.old) totals.old) (standing seat.new evictor.new (S.reads store.new) totals.new)
        result }
{
    counts_fit(totals);
    let mut elevator = Elevator::new(cache, seat, evictor, store, totals, scratch);
    scan_and_end(alloc, &mut elevator, file, plan, fragment)
}
