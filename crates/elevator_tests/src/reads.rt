//! What scans through a cache read of the store where all that they read stays there, and what the next scan reads after a read failed.
ghost use Rattle.std.specs.Prelude.{◌≡◌, ℕ};
ghost use Rattle.pool_rule.specs.declared.view.Hold.TheVariants.{Free};
ghost use Rattle.pool_rule.specs.Seats.{mark_at};
ghost use Rattle.buffer_pool.specs.Pools.{IsSeatOf, view};
ghost use Rattle.range_cache.specs.Caches.{pool_of};
ghost use Rattle.evicting_fetch.specs.Evictors.{IsEvictorOf};

use crate::files::{FIVE_KINDS, LONG_STRIPES, MANY_CUTS, Part, WORKED};
use crate::one_file::{OneFile, file_and_plan};
use crate::ranges::{are_counts, are_reads};
use crate::through::scans;
use evicting_fetch::Evictor;
use fragment_plan::Plan;
use ledgers::CacheTotals;
use outside::RealWorld;
use range_cache::{Cache, Geometry, PoolSeat};
use std::alloc::Global;

/// A file, the smallest block of the cache, a plan, and the place and the length of each read.
type Row = (&'static [Part], u32, &'static str, &'static str);

/// The last bytes of a file, at most 256; its footer; and for each stripe its footer, the lengths and the texts of each dictionary, and
/// then, for each 1,024 rows, what their values begin: column by column the cuts of PRESENT, of LENGTH and of DATA that weren't begun.
const READS: [Row; 5] = [
    (WORKED, 1_024, "s sum x from t.orc", "0+68 22+28 6+16 3+3"),
    (FIVE_KINDS, 1_024, "n count from t.orc", "166+256 320+88"),
    (
        LONG_STRIPES,
        64,
        "g group d from t.orc where n < 1024",
        "0+226 164+48 34+52 29+3 32+2 3+14 17+4 21+8 118+46 113+3 116+2 86+15 101+12",
    ),
    (
        MANY_CUTS,
        64,
        "g group t from t.orc where a > 0 and c > 0",
        "6528+256 6726+44 6675+51 3+1024 1027+1024 2253+1024 6639+36 3639+1024 4663+1024 2051+202 3277+362 5687+952",
    ),
    (
        MANY_CUTS,
        4_096,
        "s sum c from t.orc where a > 0",
        "6528+256 6726+44 6675+51 3+2250 2253+1386",
    ),
];

/// Whether the next scan, whose reads all succeed, reads what the row has from that read on.
fn reads_rest(
    alloc: Global,
    cache: &Cache<RealWorld>,
    seat: &mut PoolSeat<RealWorld>,
    evictor: &mut Evictor,
    store: &mut OneFile<'_>,
    totals: &mut CacheTotals,
    plan: &Plan,
    row: &Row,
) -> bool
    requires seat { IsSeatOf (pool_of cache.now) seat.old }
    requires no_pin { (header : ℕ) → (mark_at (view seat.old) header).hold ≡ Free }
    requires evictor { IsEvictorOf (pool_of cache.now) evictor.old }
{
    let from = store.most;
    store.reads.clear();
    store.most = usize::MAX;
    scans(alloc, cache, seat, evictor, store, totals, plan, 0, false)
        && are_reads(store, row.3, from, usize::MAX)
}

/// The scans that `goes_on` tells of, by a seat of the cache.
fn scans_twice(
    alloc: Global,
    cache: &Cache<RealWorld>,
    seat: &mut PoolSeat<RealWorld>,
    evictor: &mut Evictor,
    store: &mut OneFile<'_>,
    plan: &Plan,
    row: &Row,
) -> bool
    requires seat { IsSeatOf (pool_of cache.now) seat.old }
    requires no_pin { (header : ℕ) → (mark_at (view seat.old) header).hold ≡ Free }
    requires evictor { IsEvictorOf (pool_of cache.now) evictor.old }
{
    let all = row.3.split_whitespace().count();
    let most = store.most;
    let mut totals = CacheTotals::ZERO;
    let cold = scans(
        alloc,
        cache,
        seat,
        evictor,
        store,
        &mut totals,
        plan,
        0,
        most < all,
    ) && are_reads(store, row.3, 0, most);
    let warm = reads_rest(alloc, cache, seat, evictor, store, &mut totals, plan, row);
    cold && warm && are_counts(&totals, &[most as u64, all as u64, 0, 0])
}

/// The same over a store of those bytes, of which so many reads succeed.
fn goes_on_in(
    alloc: Global,
    cache: &Cache<RealWorld>,
    seat: &mut PoolSeat<RealWorld>,
    row: &Row,
    bytes: &[u8],
    plan: &Plan,
    most: usize,
) -> bool
    requires seat { IsSeatOf (pool_of cache.now) seat.old }
    requires no_pin { (header : ℕ) → (mark_at (view seat.old) header).hold ≡ Free }
{
    let mut store = OneFile::new(alloc, bytes, most);
    match Evictor::new(alloc, cache) {
        Ok(mut evictor) => scans_twice(alloc, cache, seat, &mut evictor, &mut store, plan, row),
        Err(_) => false,
    }
}

/// A cache with ample room, and a store of those bytes, of which so many reads succeed: a scan makes these, and ends by a read fault if
/// there are more; and the next, whose reads all succeed, makes the others and finds the first.
fn goes_on(alloc: Global, row: &Row, bytes: &[u8], plan: &Plan, most: usize) -> bool {
    let sizes = Geometry {
        min_block: row.1,
        arenas: 4,
        sets: 64,
    };
    match Cache::<RealWorld>::create(alloc, sizes, 0, 1) {
        Ok((cache, mut seat)) => goes_on_in(alloc, &cache, &mut seat, row, bytes, plan, most),
        Err(_) => false,
    }
}

/// Whether it is so for each count of reads that succeed.
fn all_succeed(alloc: Global, row: &Row, bytes: &[u8], plan: &Plan) -> bool {
    for most in 0..=row.3.split_whitespace().count() {
        if !goes_on(alloc, row, bytes, plan, most) {
            return false;
        }
    }
    true
}

fn row_goes_on(alloc: Global, row: &Row) -> bool {
    match file_and_plan(alloc, row.0, row.2) {
        Some((bytes, plan)) => all_succeed(alloc, row, bytes.as_slice(), &plan),
        None => false,
    }
}

fn all_go_on(alloc: Global) -> bool {
    for row in &READS {
        if !row_goes_on(alloc, row) {
            return false;
        }
    }
    true
}

#[test]
fn each_range_is_read_until_a_read_fails_and_then_the_rest(rt: HostRuntime) {
    assert!(rt; all_go_on(rt.alloc()));
}
