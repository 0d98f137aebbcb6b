// Fetches of one seat, one after the other, each let go.
ghost use Rattle.std.specs.Prelude.{◌≡◌, ◌*◌, ◌≤◌, length};
ghost use Rattle.pool_rule.specs.Seats.{HasNothing};
ghost use Rattle.buffer_pool.specs.Pools.{IsSameSeat, IsSeatOf, sizes_of, view};
ghost use Rattle.range_cache.specs.Caches.{pool_of};
ghost use Rattle.evicting_fetch.specs.Evictors.{IsEvictorOf};

use buffer_pool::{WordName, look};
use evicting_fetch::{Evictor, fetch};
use outside::{FileRef, RealWorld};
use range_cache::{Cache, Geometry, How, Key, PoolSeat, Why};
use std::alloc::Global;
use test_stores::Pattern;

pub(crate) const FILE: FileRef = FileRef {
    number: 0,
    len: 1 << 20,
};

pub(crate) const GEOMETRY: Geometry = Geometry {
    min_block: 64,
    arenas: 1,
    sets: 1,
};

/// What a fetch told, and how many buffers it evicted: a hit, a range that was filled, no way or no block for it, another answer, and a
/// failed read.
pub(crate) const HIT: u64 = 100;

pub(crate) const FILLED: u64 = 200;

pub(crate) const FULL: u64 = 300;

pub(crate) const NO_ROOM: u64 = 400;

const OTHER: u64 = 500;

const FAILED: u64 = 600;

/// What a fetch told.
pub(crate) fn told(how: &How) -> u64 {
    match how {
        How::Hit => HIT,
        How::Filled => FILLED,
        How::Bypass(Why::SetFull { states: _ }) => FULL,
        How::Bypass(Why::NoRoom { words: _ }) => NO_ROOM,
        How::Bypass(_) => OTHER,
    }
}

/// The key of the range of that number, of so many bytes.
pub(crate) fn key_of(number: u8, len: u32) -> Key
    ensures { result ≡ record { file = 0; at = 2048 * number; len = len } }
{
    Key {
        file: 0,
        at: 2_048 * u64::from(number),
        len,
    }
}

/// Fetches the range of that number, and lets it go.
pub(crate) fn get(
    cache: &Cache<RealWorld>,
    seat: &mut PoolSeat<RealWorld>,
    evictor: &mut Evictor,
    store: &mut Pattern,
    number: u8,
    len: u32,
) -> u64
    requires seat { IsSeatOf (pool_of cache.now) seat.old }
    requires evictor { IsEvictorOf (pool_of cache.now) evictor.old }
    requires sizes { (sizes_of (pool_of cache.now)).min_block ≡ 64 }
    requires len { (64 ≤ len) × (len ≤ 2048) }
    requires nothing { HasNothing (view seat.old) }
    ensures seat { IsSameSeat (pool_of cache.now) seat.old seat.new }
    ensures evictor { IsEvictorOf (pool_of cache.now) evictor.new }
    ensures nothing { HasNothing (view seat.new) }
{
    let key = key_of(number, len);
    let mut scratch = [0; 2_048];
    match fetch(
        cache,
        seat,
        evictor,
        store,
        key,
        FILE,
        &mut scratch[..len as usize],
    ) {
        Ok(ranged) => {
            let how = told(&ranged.how);
            let evicted = u64::from(ranged.evicted);
            ranged.done(cache, seat);
            how.wrapping_add(evicted)
        }
        Err(_) => FAILED,
    }
}

/// Whether ranges of that length, by their numbers, are got as the rows say.
fn are_got(
    cache: &Cache<RealWorld>,
    seat: &mut PoolSeat<RealWorld>,
    evictor: &mut Evictor,
    store: &mut Pattern,
    len: u32,
    rows: &[(u8, u64)],
) -> bool
    requires seat { IsSeatOf (pool_of cache.now) seat.old }
    requires evictor { IsEvictorOf (pool_of cache.now) evictor.old }
    requires sizes { (sizes_of (pool_of cache.now)).min_block ≡ 64 }
    requires len { (64 ≤ len) × (len ≤ 2048) }
    requires nothing { HasNothing (view seat.old) }
    ensures { IsSeatOf (pool_of cache.now) seat.new }
{
    for (number, how) in rows {
        if get(cache, seat, evictor, store, *number, len) != *how {
            return false;
        }
    }
    true
}

/// Whether a cache gets the rows, by so many reads of a store that fails at one of them.
fn runs_in(
    alloc: Global,
    cache: &Cache<RealWorld>,
    seat: &mut PoolSeat<RealWorld>,
    len: u32,
    failing: u64,
    rows: &[(u8, u64)],
    reads: u64,
) -> bool
    requires seat { IsSeatOf (pool_of cache.now) seat.old }
    requires sizes { (sizes_of (pool_of cache.now)).min_block ≡ 64 }
    requires len { (64 ≤ len) × (len ≤ 2048) }
    requires nothing { HasNothing (view seat.old) }
    ensures { IsSeatOf (pool_of cache.now) seat.new }
{
    let mut store = Pattern::new(failing);
    match Evictor::new(alloc, cache) {
        Ok(mut evictor) => {
            are_got(cache, seat, &mut evictor, &mut store, len, rows) && store.reads == reads
        }
        Err(_) => false,
    }
}

/// Whether a new cache of so many arenas does, and the words of the first arena, of the clock and of the touches of header 0 are then
/// these.
fn runs(
    alloc: Global,
    arenas: u32,
    half_life: u64,
    len: u32,
    failing: u64,
    rows: &[(u8, u64)],
    reads: u64,
    words: [u64; 3],
) -> bool
    requires { (64 ≤ len) × (len ≤ 2048) }
{
    let geometry = Geometry {
        min_block: 64,
        arenas,
        sets: 1,
    };
    match Cache::<RealWorld>::create(alloc, geometry, half_life, 1) {
        Ok((cache, mut seat)) => {
            runs_in(alloc, &cache, &mut seat, len, failing, rows, reads)
                && look(cache.pool(), &mut seat, WordName::Arena(0)) == words[0]
                && look(cache.pool(), &mut seat, WordName::Clock) == words[1]
                && look(cache.pool(), &mut seat, WordName::Touches(0)) == words[2]
        }
        Err(_) => false,
    }
}

/// Three ranges of which two fit: what goes is the one of fewest touches, or of the oldest where touches are forgotten.
#[test]
fn what_was_used_least_goes(rt: HostRuntime) {
    let kept = [
        (0, FILLED),
        (0, HIT),
        (1, FILLED),
        (2, FILLED + 1),
        (0, HIT),
        (1, FILLED + 1),
    ];
    let last = [
        (0, FILLED),
        (0, HIT),
        (1, FILLED),
        (2, FILLED + 1),
        (0, FILLED + 1),
        (1, FILLED + 1),
    ];
    assert!(rt; runs(rt.alloc(), 1, 0, 2_048, 0, &kept, 4, [u64::MAX, 6, 0]));
    assert!(rt; runs(rt.alloc(), 1, 1, 2_048, 0, &last, 5, [u64::MAX, 6, 0]));
}

/// A range is touched once where it is filled and once at each hit.
#[test]
fn each_get_touches_once(rt: HostRuntime) {
    let rows = [(0, FILLED), (0, HIT), (0, HIT)];
    assert!(rt; runs(rt.alloc(), 1, 0, 64, 0, &rows, 1, [1, 3, 3]));
}

/// A ninth range takes the way and the block of the oldest of eight: with equal touches the last ones decide.
#[test]
fn a_full_set_gives_a_way(rt: HostRuntime) {
    let rows = [
        (0, FILLED),
        (1, FILLED),
        (2, FILLED),
        (3, FILLED),
        (4, FILLED),
        (5, FILLED),
        (6, FILLED),
        (7, FILLED),
        (8, FILLED + 1),
        (1, HIT),
        (0, FILLED + 1),
    ];
    assert!(rt; runs(rt.alloc(), 1, 0, 64, 0, &rows, 10, [0xFF, 11, 0]));
}

/// After a read that failed nothing but the clock has changed.
#[test]
fn a_failed_read_ticks_alone(rt: HostRuntime) {
    assert!(rt; runs(rt.alloc(), 1, 0, 64, 1, &[(0, FAILED)], 1, [0, 1, 0]));
}

/// A fifth range of four that fill two arenas takes the block of the one victim, in the victim's arena: the first arena stays as it is.
#[test]
fn the_victims_arena_is_asked(rt: HostRuntime) {
    let rows = [
        (0, FILLED),
        (1, FILLED),
        (2, FILLED),
        (3, FILLED),
        (0, HIT),
        (1, HIT),
        (4, FILLED + 1),
        (3, HIT),
        (0, HIT),
        (1, HIT),
    ];
    assert!(rt; runs(rt.alloc(), 2, 0, 2_048, 0, &rows, 5, [u64::MAX, 10, 1]));
}
