// Fetches of one seat, one after the other, each let go.
ghost use Rattle.std.specs.Prelude.{◌≡◌, ◌≤◌, length};
ghost use Rattle.pool_rule.specs.Seats.{HasNothing};
ghost use Rattle.buffer_pool.specs.Pools.{IsSameSeat, IsSeatOf, sizes_of, view};
ghost use Rattle.range_cache.specs.Caches.{pool_of};

use buffer_pool::{WordName, look};
use outside::{FileRef, RealWorld};
use range_cache::{Cache, Geometry, How, Key, PoolSeat, Why, fetch};
use std::alloc::Global;
use test_stores::{Pattern, byte_at};

const FILE: FileRef = FileRef {
    number: 0,
    len: 1 << 20,
};

const GEOMETRY: Geometry = Geometry {
    min_block: 64,
    arenas: 1,
    sets: 1,
};

/// What a fetch told, as a number that rows can name.
const HIT: u64 = 1;

const FILLED: u64 = 2;

const FULL: u64 = 3;

const FAILED: u64 = 4;

const OTHER: u64 = 5;

/// Whether the states are those of the eight smallest blocks in their order, live and held by nobody.
fn are_eight_idle(states: &[u64; 8]) -> bool {
    for i in 0..8 {
        if states[i] != (i as u64) << 24 {
            return false;
        }
    }
    true
}

/// `NoRoom` is told by the arena's word.
fn told(how: &How) -> u64 {
    match how {
        How::Hit => HIT,
        How::Filled => FILLED,
        How::Bypass(Why::NoRoom { words }) => words[0],
        How::Bypass(Why::SetFull { states }) => {
            if are_eight_idle(states) { FULL } else { OTHER }
        }
        How::Bypass(_) => OTHER,
    }
}

/// Whether the bytes are the file's from a place on.
fn are_bytes(at: u64, bytes: &[u8]) -> bool
    requires at { at ≤ 1048576 }
    requires len { length bytes.now ≤ 64 }
{
    for i in 0..bytes.len() {
        if bytes[i] != byte_at(at + i as u64) {
            return false;
        }
    }
    true
}

/// Fetches the range of that number, reads forty bytes of it, and lets it go. Gives how it was got, if the bytes are the file's.
fn get(
    cache: &Cache<RealWorld>,
    seat: &mut PoolSeat<RealWorld>,
    store: &mut Pattern,
    number: u8,
    len: u32,
) -> u64
    requires seat { IsSeatOf (pool_of cache.now) seat.old }
    requires sizes { (sizes_of (pool_of cache.now)).min_block ≡ 64 }
    requires len { (64 ≤ len) × (len ≤ 2048) }
    requires nothing { HasNothing (view seat.old) }
    ensures seat { IsSameSeat (pool_of cache.now) seat.old seat.new }
    ensures nothing { HasNothing (view seat.new) }
{
    let at = 2_048 * u64::from(number);
    let key = Key { file: 0, at, len };
    let mut scratch = [0; 2_048];
    let scratch = &mut scratch[..len as usize];
    match fetch(cache, seat, store, key, FILE, scratch) {
        Ok(ranged) => {
            let mut into = [0; 40];
            ranged.read(cache, seat, scratch, 5, &mut into);
            let how = if are_bytes(at + 5, &into) {
                told(&ranged.how)
            } else {
                OTHER
            };
            ranged.done(cache, seat);
            how
        }
        Err(_) => FAILED,
    }
}

/// Whether ranges of that length, by their numbers, are got as the rows say.
fn are_got(
    cache: &Cache<RealWorld>,
    seat: &mut PoolSeat<RealWorld>,
    store: &mut Pattern,
    len: u32,
    rows: &[(u8, u64)],
) -> bool
    requires seat { IsSeatOf (pool_of cache.now) seat.old }
    requires sizes { (sizes_of (pool_of cache.now)).min_block ≡ 64 }
    requires len { (64 ≤ len) × (len ≤ 2048) }
    requires nothing { HasNothing (view seat.old) }
    ensures { IsSeatOf (pool_of cache.now) seat.new }
{
    for (number, how) in rows {
        if get(cache, seat, store, *number, len) != *how {
            return false;
        }
    }
    true
}

/// Whether a new cache gets the rows, by so many reads of a store that fails at one of them, and what the arena's word is then.
fn runs(alloc: Global, len: u32, failing: u64, rows: &[(u8, u64)], reads: u64, word: u64) -> bool
    requires { (64 ≤ len) × (len ≤ 2048) }
{
    let mut store = Pattern::new(failing);
    match Cache::<RealWorld>::create(alloc, GEOMETRY, 0, 1) {
        Ok((cache, mut seat)) => {
            are_got(&cache, &mut seat, &mut store, len, rows)
                && store.reads == reads
                && look(cache.pool(), &mut seat, WordName::Arena(0)) == word
        }
        Err(_) => false,
    }
}

#[test]
fn fetches_until_no_arena_has_room(rt: HostRuntime) {
    let rows = [(0, FILLED), (0, HIT), (1, FILLED), (2, u64::MAX)];
    assert!(rt; runs(rt.alloc(), 2_048, 0, &rows, 3, u64::MAX));
}

#[test]
fn fetches_until_the_set_is_full(rt: HostRuntime) {
    let rows = [
        (0, FILLED),
        (1, FILLED),
        (2, FILLED),
        (3, FILLED),
        (4, FILLED),
        (5, FILLED),
        (6, FILLED),
        (7, FILLED),
        (8, FULL),
        (7, HIT),
    ];
    assert!(rt; runs(rt.alloc(), 64, 0, &rows, 9, 0xFF));
}

#[test]
fn a_failed_read_changes_nothing(rt: HostRuntime) {
    assert!(rt; runs(rt.alloc(), 64, 1, &[(0, FAILED)], 1, 0));
    let rows = [(0, FAILED), (0, FILLED), (0, HIT)];
    assert!(rt; runs(rt.alloc(), 64, 1, &rows, 2, 1));
}
