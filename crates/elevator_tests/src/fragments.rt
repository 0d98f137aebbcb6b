//! What the scans of a plan's fragments read of the store, one after the other over one small cache that evicts.
ghost use Rattle.std.specs.Prelude.{◌≡◌, ℕ};
ghost use Rattle.pool_rule.specs.declared.view.Hold.TheVariants.{Free};
ghost use Rattle.pool_rule.specs.Seats.{mark_at};
ghost use Rattle.buffer_pool.specs.Pools.{IsSeatOf, view};
ghost use Rattle.range_cache.specs.Caches.{pool_of};
ghost use Rattle.evicting_fetch.specs.Evictors.{IsEvictorOf};

use crate::files::{FIVE_KINDS, LONG_STRIPES, MANY_CUTS, Part};
use crate::one_file::{OneFile, file_and_plan};
use crate::ranges::{are_counts, are_reads};
use crate::through::scans;
use evicting_fetch::Evictor;
use fragment_plan::Plan;
use ledgers::CacheTotals;
use outside::RealWorld;
use range_cache::{Cache, Geometry, PoolSeat};
use std::alloc::Global;

/// A file; the sets of a cache of one arena, whose smallest block has 64 bytes, and its half-life; a plan of scans; the place and the
/// length of each read; and how many ranges were hits, filled, and read past the cache, and how many buffers were evicted.
struct Row {
    file: &'static [Part],
    sets: u32,
    half_life: u64,
    plan: &'static str,
    reads: &'static str,
    counts: [u64; 4],
}

const KINDS: &str = "\
n count from t.orc
r rows d,t,l,i,s,b from t.orc
g group t from t.orc
s sum i from t.orc";

const TEXTS: &str = "\
r rows b,s,i,l,t,d from t.orc
g group d from t.orc where t is not null";

const LONG: &str = "\
a group d from t.orc where n < 1024
b sum n from t.orc
c group d from t.orc
d count from t.orc where n >= 0 and d is null";

const CUTS: &str = "\
a group t from t.orc where a > 0 and c > 0
b sum c from t.orc where a > 0
c count from t.orc where a > 0 and c > 0 and t = 'xy'
d group t from t.orc";

/// Found by another program, a cache of plain lists over the ranges that each scan wants: by their columns, both encodings of texts, the
/// rows that each cut serves, and the drops.
const ROWS: [Row; 5] = [
    Row {
        file: FIVE_KINDS,
        sets: 4,
        half_life: 1,
        plan: KINDS,
        reads: "166+256 320+88 54+142 49+3 52+2 3+2 5+2 7+2 9+5 14+2 16+5 21+2 \
23+10 33+2 41+3 35+6 44+2 46+3 224+96 196+2 198+4 202+4 206+4 213+4 \
210+3 220+4 217+3 54+142 33+2 41+3 35+6 224+96",
        counts: [13, 25, 7, 7],
    },
    Row {
        file: FIVE_KINDS,
        sets: 1,
        half_life: 0,
        plan: TEXTS,
        reads: "166+256 320+88 54+142 49+3 52+2 3+2 5+2 7+2 9+5 14+2 16+5 21+2 \
23+10 33+2 41+3 35+6 44+2 46+3 224+96 196+2 198+4 202+4 206+4 213+4 \
210+3 220+4 217+3 166+256 320+88 54+142 49+3 52+2 33+2 41+3 35+6 44+2 \
46+3 224+96 213+4 210+3 220+4 217+3",
        counts: [0, 35, 7, 27],
    },
    Row {
        file: LONG_STRIPES,
        sets: 1,
        half_life: 0,
        plan: LONG,
        reads: "0+226 164+48 34+52 29+3 32+2 3+14 17+4 21+8 118+46 113+3 116+2 86+15 \
101+12 0+226 164+48 34+52 3+14 118+46 29+3 32+2 17+4 21+8 118+46 113+3 \
116+2 101+12 29+3 32+2 3+14 17+4 21+8 118+46 113+3 116+2 86+15 101+12",
        counts: [7, 36, 0, 28],
    },
    Row {
        file: LONG_STRIPES,
        sets: 1,
        half_life: 1,
        plan: LONG,
        reads: "0+226 164+48 34+52 29+3 32+2 3+14 17+4 21+8 118+46 113+3 116+2 86+15 \
101+12 0+226 164+48 34+52 3+14 118+46 29+3 32+2 17+4 21+8 118+46 113+3 \
116+2 101+12 0+226 164+48 34+52 29+3 32+2 3+14 17+4 21+8 118+46 113+3 \
116+2 86+15 101+12",
        counts: [4, 39, 0, 31],
    },
    Row {
        file: MANY_CUTS,
        sets: 64,
        half_life: 0,
        plan: CUTS,
        reads: "6528+256 6726+44 6675+51 3+1024 1027+1024 2253+1024 6639+36 3639+1024 4663+1024 2051+202 3277+362 5687+952 \
6528+256 6726+44 6675+51 3+1024 1027+1024 2253+1024 2051+202 3277+362 6528+256 6726+44 6675+51 3+1024 \
1027+1024 2253+1024 6639+36 3639+1024 4663+1024 2051+202 3277+362 5687+952 6528+256 6726+44 6675+51 3639+1024 \
4663+1024 5687+952",
        counts: [1, 38, 0, 32],
    },
];

/// Whether the scans of a plan's fragments, one after the other, print what scans past the cache print.
fn all_scan(
    alloc: Global,
    cache: &Cache<RealWorld>,
    seat: &mut PoolSeat<RealWorld>,
    evictor: &mut Evictor,
    store: &mut OneFile<'_>,
    totals: &mut CacheTotals,
    plan: &Plan,
) -> bool
    requires seat { IsSeatOf (pool_of cache.now) seat.old }
    requires no_pin { (header : ℕ) → (mark_at (view seat.old) header).hold ≡ Free }
    requires evictor { IsEvictorOf (pool_of cache.now) evictor.old }
{
    for fragment in 0..4 {
        if plan.fragments().get(fragment as usize).is_none() {
            return true;
        }
        if !scans(
            alloc, cache, seat, evictor, store, totals, plan, fragment, false,
        ) {
            return false;
        }
    }
    true
}

/// Whether the scans of a plan over the store's file make the row's reads, and count its counts.
fn reads_by(
    alloc: Global,
    cache: &Cache<RealWorld>,
    seat: &mut PoolSeat<RealWorld>,
    evictor: &mut Evictor,
    store: &mut OneFile<'_>,
    plan: &Plan,
    row: &Row,
) -> bool
    requires seat { IsSeatOf (pool_of cache.now) seat.old }
    requires no_pin { (header : ℕ) → (mark_at (view seat.old) header).hold ≡ Free }
    requires evictor { IsEvictorOf (pool_of cache.now) evictor.old }
{
    let mut totals = CacheTotals::ZERO;
    all_scan(alloc, cache, seat, evictor, store, &mut totals, plan)
        && are_reads(store, row.reads, 0, usize::MAX)
        && are_counts(&totals, &row.counts)
}

fn reads_in(
    alloc: Global,
    cache: &Cache<RealWorld>,
    seat: &mut PoolSeat<RealWorld>,
    bytes: &[u8],
    plan: &Plan,
    row: &Row,
) -> bool
    requires seat { IsSeatOf (pool_of cache.now) seat.old }
    requires no_pin { (header : ℕ) → (mark_at (view seat.old) header).hold ≡ Free }
{
    let mut store = OneFile::new(alloc, bytes, usize::MAX);
    match Evictor::new(alloc, cache) {
        Ok(mut evictor) => reads_by(alloc, cache, seat, &mut evictor, &mut store, plan, row),
        Err(_) => false,
    }
}

/// Whether it is so over those bytes and through the row's cache.
fn reads_so(alloc: Global, row: &Row, bytes: &[u8], plan: &Plan) -> bool {
    let sizes = Geometry {
        min_block: 64,
        arenas: 1,
        sets: row.sets,
    };
    match Cache::<RealWorld>::create(alloc, sizes, row.half_life, 1) {
        Ok((cache, mut seat)) => reads_in(alloc, &cache, &mut seat, bytes, plan, row),
        Err(_) => false,
    }
}

fn row_holds(alloc: Global, row: &Row) -> bool {
    match file_and_plan(alloc, row.file, row.plan) {
        Some((bytes, plan)) => reads_so(alloc, row, bytes.as_slice(), &plan),
        None => false,
    }
}

fn all_hold(alloc: Global) -> bool {
    for row in &ROWS {
        if !row_holds(alloc, row) {
            return false;
        }
    }
    true
}

#[test]
fn fragments_read_what_a_small_cache_has_not(rt: HostRuntime) {
    assert!(rt; all_hold(rt.alloc()));
}
