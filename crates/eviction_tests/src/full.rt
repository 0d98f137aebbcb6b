// Eight ranges are held by other seats, each a way of the one set.
ghost use Rattle.std.specs.Prelude.{◌≡◌, ◌+◌, ◌≤◌, length};
ghost use Rattle.pool_rule.specs.Seats.{HasNothing};
ghost use Rattle.buffer_pool.specs.Pools.{IsSameSeat, IsSeatOf, sizes_of, view};
ghost use Rattle.range_cache.specs.Caches.{pool_of};
ghost use Rattle.evicting_fetch.specs.Evictors.{IsEvictorOf};

use crate::fetches::{FILE, FILLED, GEOMETRY, get, key_of};
use buffer_pool::{pin, split, unpin};
use evicting_fetch::{Evictor, fetch};
use outside::RealWorld;
use range_cache::{Cache, How, PoolSeat, Why};
use std::alloc::Global;
use test_stores::Pattern;

/// Whether the states are those of the eight smallest blocks in their order, live and held once.
fn are_eight_held(states: &[u64; 8]) -> bool {
    for i in 0..8 {
        if states[i] != (i as u64) << 24 | 0x10 {
            return false;
        }
    }
    true
}

/// Whether a fetch told that the set is full by these.
fn is_full(how: &How) -> bool {
    match how {
        How::Bypass(Why::SetFull { states }) => are_eight_held(states),
        _ => false,
    }
}

/// Whether the ninth range goes past the cache, since the set is full, and nothing is evicted for it.
fn is_refused(
    cache: &Cache<RealWorld>,
    seat: &mut PoolSeat<RealWorld>,
    evictor: &mut Evictor,
    store: &mut Pattern,
) -> bool
    requires seat { IsSeatOf (pool_of cache.now) seat.old }
    requires evictor { IsEvictorOf (pool_of cache.now) evictor.old }
    requires bytes { (sizes_of (pool_of cache.now)).min_block ≡ 64 }
    requires nothing { HasNothing (view seat.old) }
    ensures seat { IsSameSeat (pool_of cache.now) seat.old seat.new }
    ensures evictor { IsEvictorOf (pool_of cache.now) evictor.new }
    ensures nothing { HasNothing (view seat.new) }
{
    let mut scratch = [0; 64];
    match fetch(
        cache,
        seat,
        evictor,
        store,
        key_of(8, 64),
        FILE,
        &mut scratch,
    ) {
        Ok(ranged) => {
            let full = is_full(&ranged.how);
            let none = ranged.evicted == 0;
            ranged.done(cache, seat);
            full & none
        }
        Err(_) => false,
    }
}

/// Whether it is refused while the ways from one on are held, each by a seat of its own.
fn is_refused_with(
    cache: &Cache<RealWorld>,
    seat: &mut PoolSeat<RealWorld>,
    rest: &mut PoolSeat<RealWorld>,
    evictor: &mut Evictor,
    store: &mut Pattern,
    way: u8,
) -> bool
    requires seat { IsSeatOf (pool_of cache.now) seat.old }
    requires rest { IsSeatOf (pool_of cache.now) rest.old }
    requires evictor { IsEvictorOf (pool_of cache.now) evictor.old }
    requires bytes { (sizes_of (pool_of cache.now)).min_block ≡ 64 }
    requires sets { (sizes_of (pool_of cache.now)).sets ≡ 1 }
    requires nothing { HasNothing (view seat.old) }
    requires free { HasNothing (view rest.old) }
    requires way { way ≤ 8 }
    requires numbers { length (view rest.old).numbers + way ≡ 9 }
    ensures seat { IsSameSeat (pool_of cache.now) seat.old seat.new }
    ensures evictor { IsEvictorOf (pool_of cache.now) evictor.new }
    ensures nothing { HasNothing (view seat.new) }
{
    if way == 8 {
        return is_refused(cache, seat, evictor, store);
    }
    let mut mine = split(cache.pool(), rest, 1);
    let Ok(held) = pin(cache.pool(), &mut mine, u32::from(way), key_of(way, 64)) else {
        return false;
    };
    let refused = is_refused_with(cache, seat, rest, evictor, store, way + 1);
    unpin(cache.pool(), &mut mine, held);
    refused
}

/// Whether eight ranges are filled, the ninth is refused while these are held, and takes a way once they are let go.
fn fills_the_set(
    cache: &Cache<RealWorld>,
    seat: &mut PoolSeat<RealWorld>,
    rest: &mut PoolSeat<RealWorld>,
    evictor: &mut Evictor,
    store: &mut Pattern,
) -> bool
    requires seat { IsSeatOf (pool_of cache.now) seat.old }
    requires rest { IsSeatOf (pool_of cache.now) rest.old }
    requires evictor { IsEvictorOf (pool_of cache.now) evictor.old }
    requires bytes { (sizes_of (pool_of cache.now)).min_block ≡ 64 }
    requires sets { (sizes_of (pool_of cache.now)).sets ≡ 1 }
    requires nothing { HasNothing (view seat.old) }
    requires free { HasNothing (view rest.old) }
    requires numbers { length (view rest.old).numbers ≡ 9 }
{
    for number in 0..8 {
        if get(cache, seat, evictor, store, number, 64) != FILLED {
            return false;
        }
    }
    is_refused_with(cache, seat, rest, evictor, store, 0)
        && get(cache, seat, evictor, store, 8, 64) == FILLED + 1
}

fn fills_by_two(
    alloc: Global,
    cache: &Cache<RealWorld>,
    seat: &mut PoolSeat<RealWorld>,
    rest: &mut PoolSeat<RealWorld>,
) -> bool
    requires seat { IsSeatOf (pool_of cache.now) seat.old }
    requires rest { IsSeatOf (pool_of cache.now) rest.old }
    requires bytes { (sizes_of (pool_of cache.now)).min_block ≡ 64 }
    requires sets { (sizes_of (pool_of cache.now)).sets ≡ 1 }
    requires nothing { HasNothing (view seat.old) }
    requires free { HasNothing (view rest.old) }
    requires numbers { length (view rest.old).numbers ≡ 9 }
{
    let mut store = Pattern::new(0);
    match Evictor::new(alloc, cache) {
        Ok(mut evictor) => fills_the_set(cache, seat, rest, &mut evictor, &mut store),
        Err(_) => false,
    }
}

fn a_held_set_is_full(alloc: Global) -> bool {
    match Cache::<RealWorld>::create(alloc, GEOMETRY, 0, 10) {
        Ok((cache, mut seat)) => {
            let mut rest = split(cache.pool(), &mut seat, 9);
            fills_by_two(alloc, &cache, &mut seat, &mut rest)
        }
        Err(_) => false,
    }
}

#[test]
fn a_set_that_is_held_gives_no_way(rt: HostRuntime) {
    assert!(rt; a_held_set_is_full(rt.alloc()));
}
