//! The run of a plan's bytes, by the caller alone.
ghost use Rattle.std.specs.Prelude.{◌≡◌, ℕ, [], Some, IfOk, length};
ghost use Rattle.outside.specs.Cause.{Rose};
ghost use Rattle.pool_rule.specs.declared.view.Hold.TheVariants.{Free};
ghost use Rattle.pool_rule.specs.Rule.{first_words};
ghost use Rattle.pool_rule.specs.Seats.{HasNothing, mark_at};
ghost use Rattle.buffer_pool.specs.Pools.{IsSeatOf, sizes_of, view};
ghost use Rattle.range_cache.specs.Caches.{half_life_of, pool_of};
ghost use Rattle.evicting_fetch.specs.Evictors.{IsEvictorOf};
ghost use Rattle.io_elevator.specs.Scratch.{IsFreshFor};
ghost use Rattle.fragment_plan.specs.Plan.{plan_of};
ghost use Rattle.command_line.specs.Options.{AreInRange};
ghost use Rattle.plan_run.specs.Run.{HasRun};
ghost use Rattle.data_path.specs.Geometries.{IsThrough, RunsThrough, geometry_of};
ghost use Rattle.data_path.specs.Headline.{Answers, CompletesAlone, Prints};
ghost use Rattle.data_path.specs.RunText.{AreTotals};
ghost use Rattle.held_ranges.specs.Counts.{AreStepsCounted};
ghost use Rattle.scan_inline.specs.Counts.{AreCounted};
ghost use Rattle.scan_inline.specs.Through.{standing};

use crate::cache_scanner::CacheScanner;
use crate::faulty_plan::fault_line;
use crate::status::Status;
use crate::writing::{run_written, written};
use command_line::Options;
use evicting_fetch::Evictor;
use fragment_plan::{Plan, PlanError, read_plan};
use io_elevator::Scratch;
use ledgers::CacheTotals;
use outside::{NoMemory, Sink, Store, World};
use plan_run::laws::{plans_are_short, quiet_runs_mean_the_plan};
use plan_run::{Outcomes, run_plan};
use range_cache::{Cache, Geometry, OpenFault, PoolSeat};
use std::alloc::Global;

/// A cache of the options' geometry and half-life, with its one seat, which has no pin. All memory of the cache is taken here, and it
/// refuses only for want of it.
fn cache_for<W: World>(
    alloc: Global,
    options: &Options,
) -> Result<(Cache<W>, PoolSeat<W>), NoMemory>
    requires in_range { AreInRange options.now }
    ensures sizes { IfOk result (λ r. sizes_of (pool_of r.0) ≡ geometry_of options.now) }
    ensures half_life { IfOk result (λ r. half_life_of r.0 ≡ options.now.half_life) }
    ensures seat { IfOk result (λ r. IsSeatOf (pool_of r.0) r.1) }
    ensures no_pin { IfOk result (λ r. (header : ℕ) → (mark_at (view r.1) header).hold ≡ Free) }
    ensures numbers { IfOk result (λ r. length (view r.1).numbers ≡ 1) }
    ensures words { IfOk result (λ r. (view r.1).known ≡ Some (first_words (geometry_of options.now))) }
    ensures nothing { IfOk result (λ r. HasNothing (view r.1)) }
    ensures trail { IfOk result (λ r. (view r.1).trail ≡ []) }
{
    let geometry = Geometry {
        min_block: options.min_block,
        arenas: options.arenas,
        sets: options.sets,
    };
    match Cache::create(alloc, geometry, options.half_life, 1) {
        Ok(made) => Ok(made),
        Err(OpenFault::BadGeometry) => unreachable!(),
        Err(OpenFault::NoMemory) => Err(NoMemory),
    }
}

/// Runs a plan over a store that is read through a cache, by a seat of it without pins, in scratch in which nothing is held.
fn run_through<W: World, S: Store<W>>(
    alloc: Global,
    plan: &Plan,
    cache: &Cache<W>,
    seat: &mut PoolSeat<W>,
    evictor: &mut Evictor,
    last: &mut S,
    scratch: &mut Scratch<W>,
    totals: &mut CacheTotals,
) -> Result<Outcomes, NoMemory>
    requires seat { IsSeatOf (pool_of cache.now) seat.old }
    requires no_pin { (header : ℕ) → (mark_at (view seat.old) header).hold ≡ Free }
    requires evictor { IsEvictorOf (pool_of cache.now) evictor.old }
    requires fresh { IsFreshFor (sizes_of (pool_of cache.now)) scratch.old }
    ensures seat { IsSeatOf (pool_of cache.now) seat.new }
    ensures fresh { IsFreshFor (sizes_of (pool_of cache.now)) scratch.new }
    ensures run { IfOk result (HasRun W.files (S.fault_count last.old) (S.fault_count last.new) plan.now) }
    ensures counted { AreCounted (S.reads last.old) (S.reads last.new) totals.old totals.new }
    ensures steps { AreStepsCounted W.files (pool_of cache.now) seat.old seat.new totals.old totals.new }
    ensures ran { IfOk result (λ outcomes. RunsThrough W.files cache.now plan.now 0 outcomes
        (standing seat.old evictor.old (S.reads last.old) totals.old) (standing seat.new evictor.new (S.reads last.new) totals.new)) }
{
    let mut scanner = CacheScanner::new(cache, seat, evictor, last, scratch, totals);
    run_plan(alloc, plan, &mut scanner)
}

/// Runs a plan over a store that is read through a cache, which it makes before the plan runs and lets go, and with it what decides its
/// evictions, and scratch for its scans. It answers the outcomes, and how the ranges that were read were got.
fn run_over<W: World, S: Store<W>>(
    alloc: Global,
    options: &Options,
    plan: &Plan,
    last: &mut S,
) -> Result<(Outcomes, CacheTotals), NoMemory>
    requires in_range { AreInRange options.now }
    ensures run { IfOk result (λ r. HasRun W.files (S.fault_count last.old) (S.fault_count last.new) plan.now r.0) }
    ensures counted { IfOk result (λ r. AreTotals (S.reads last.old) (S.reads last.new) r.1) }
    ensures through { IfOk result (λ r. IsThrough W W.files (S.reads last.old) (S.reads last.new) options.now
        plan.now r.0 r.1) }
{
    let (cache, mut seat) = match cache_for(alloc, options) {
        Ok(made) => made,
        Err(NoMemory) => return Err(NoMemory),
    };
    let mut evictor = match Evictor::new(alloc, &cache) {
        Ok(evictor) => evictor,
        Err(NoMemory) => return Err(NoMemory),
    };
    let mut scratch = match Scratch::new(alloc, &cache, &mut seat) {
        Ok(scratch) => scratch,
        Err(NoMemory) => return Err(NoMemory),
    };
    let mut totals = CacheTotals::ZERO;
    let outcomes = run_through(
        alloc,
        plan,
        &cache,
        &mut seat,
        &mut evictor,
        last,
        &mut scratch,
        &mut totals,
    );
    scratch.free(&cache, &mut seat);
    match outcomes {
        Ok(outcomes) => Ok((outcomes, totals)),
        Err(NoMemory) => Err(NoMemory),
    }
}

/// Runs a plan's bytes over the files of a world, and writes each fragment's result, by the caller alone.
///
/// `options` are some that a command line can give. Each scan goes through a cache of their geometry and half-life, which the call makes
/// before the plan runs, and lets go; those of threads aren't used yet.
///
/// Bytes that are no plan write the line of their first fault: `BadPlan`, and the store is as it was. Else the results of all
/// fragments are written, in plan order, and then the line of the cache. Its counts are those of the plan's scans, each by its acts and by
/// deeds that fit them, from that cache on, which is new; where the store tells its reads, its fills and bypasses are as many as it read,
/// unless one of the two stands at its last value. Where the world tells its files, what is written is what the fragments mean, but for at
/// most as many scans with a read fault as the faults of `last` rose by. `Done` where no fragment failed, else `SomeFailed`.
/// `WriteFault` only where the sink's faults rose, and a front of the text was written. After `NoMemory` nothing was written.
/// It never answers `Usage` or `PlanFault`.
pub fn alone<W: World, S: Store<W>, K: Sink>(
    alloc: Global,
    options: &Options,
    plan: &[u8],
    last: &mut S,
    out: &mut K,
) -> Status
    requires in_range { AreInRange options.now }
    ensures answers { Answers
        (Prints W.files (IsThrough W W.files (S.reads last.old) (S.reads last.new) options.now) (S.fault_count last.old)
        (S.fault_count last.new) (S.reads last.old) (S.reads last.new) (last.new ≡ last.old) plan.now)
        (Rose (K.fault_count out.old) (K.fault_count out.new)) ⊥ (K.content out.old) (K.content out.new) result }
    ensures complete { CompletesAlone W.files (Rose (S.fault_count last.old) (S.fault_count last.new))
        (Rose (K.fault_count out.old) (K.fault_count out.new)) plan.now (K.content out.old) (K.content out.new) result }
{
    quiet_runs_mean_the_plan();
    plans_are_short();
    let plan = match read_plan(alloc, plan) {
        Ok(plan) => plan,
        Err(PlanError::Fault { line, kind }) => {
            let Ok(text) = fault_line(alloc, line, kind) else {
                return Status::NoMemory;
            };
            return written(out, text.as_slice(), Status::BadPlan);
        }
        Err(PlanError::NoMemory) => return Status::NoMemory,
    };
    match run_over(alloc, options, &plan, last) {
        Ok((outcomes, totals)) => run_written(&plan, outcomes.as_slice(), &totals, out),
        Err(_) => Status::NoMemory,
    }
}
