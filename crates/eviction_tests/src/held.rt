// Two of four ranges are held by other seats, so that no block of half an arena can be made free.
ghost use Rattle.std.specs.Prelude.{◌≡◌};
ghost use Rattle.pool_rule.specs.Seats.{HasNothing};
ghost use Rattle.buffer_pool.specs.Pools.{IsSameSeat, IsSeatOf, sizes_of, view};
ghost use Rattle.range_cache.specs.Caches.{pool_of};
ghost use Rattle.evicting_fetch.specs.Evictors.{IsEvictorOf};

use crate::fetches::{FILLED, GEOMETRY, NO_ROOM, get, key_of};
use buffer_pool::{WordName, look, pin, split, unpin};
use evicting_fetch::Evictor;
use outside::RealWorld;
use range_cache::{Cache, PoolSeat};
use std::alloc::Global;
use test_stores::Pattern;

/// Whether half an arena can't be had while header 2 is held too: what can go has gone, and the other two quarters stay.
fn has_no_room(
    cache: &Cache<RealWorld>,
    seat: &mut PoolSeat<RealWorld>,
    third: &mut PoolSeat<RealWorld>,
    evictor: &mut Evictor,
    store: &mut Pattern,
) -> bool
    requires seat { IsSeatOf (pool_of cache.now) seat.old }
    requires third { IsSeatOf (pool_of cache.now) third.old }
    requires evictor { IsEvictorOf (pool_of cache.now) evictor.old }
    requires bytes { (sizes_of (pool_of cache.now)).min_block ≡ 64 }
    requires sets { (sizes_of (pool_of cache.now)).sets ≡ 1 }
    requires arenas { (sizes_of (pool_of cache.now)).arenas ≡ 1 }
    requires nothing { HasNothing (view seat.old) }
    requires free { HasNothing (view third.old) }
    ensures seat { IsSameSeat (pool_of cache.now) seat.old seat.new }
    ensures evictor { IsEvictorOf (pool_of cache.now) evictor.new }
    ensures nothing { HasNothing (view seat.new) }
{
    let Ok(held) = pin(cache.pool(), third, 2, key_of(2, 1_024)) else {
        return false;
    };
    let answer = get(cache, seat, evictor, store, 4, 2_048);
    unpin(cache.pool(), third, held);
    let word = look(cache.pool(), third, WordName::Arena(0));
    answer == NO_ROOM + 2 && word == 0x0000_FFFF_0000_FFFF
}

/// Whether four quarters are brought in, half an arena can't be had while two of them are held, and can be once they are let go.
fn waits_for_the_held(
    cache: &Cache<RealWorld>,
    seat: &mut PoolSeat<RealWorld>,
    second: &mut PoolSeat<RealWorld>,
    third: &mut PoolSeat<RealWorld>,
    evictor: &mut Evictor,
    store: &mut Pattern,
) -> bool
    requires seat { IsSeatOf (pool_of cache.now) seat.old }
    requires second { IsSeatOf (pool_of cache.now) second.old }
    requires third { IsSeatOf (pool_of cache.now) third.old }
    requires evictor { IsEvictorOf (pool_of cache.now) evictor.old }
    requires bytes { (sizes_of (pool_of cache.now)).min_block ≡ 64 }
    requires sets { (sizes_of (pool_of cache.now)).sets ≡ 1 }
    requires arenas { (sizes_of (pool_of cache.now)).arenas ≡ 1 }
    requires nothing { HasNothing (view seat.old) }
    requires free { HasNothing (view second.old) }
    requires third_free { HasNothing (view third.old) }
{
    let first = get(cache, seat, evictor, store, 0, 1_024);
    let next = get(cache, seat, evictor, store, 1, 1_024);
    let after = get(cache, seat, evictor, store, 2, 1_024);
    let last = get(cache, seat, evictor, store, 3, 1_024);
    let Ok(held) = pin(cache.pool(), second, 0, key_of(0, 1_024)) else {
        return false;
    };
    let full = has_no_room(cache, seat, third, evictor, store);
    unpin(cache.pool(), second, held);
    let then = get(cache, seat, evictor, store, 4, 2_048);
    let filled = first == FILLED && next == FILLED && after == FILLED && last == FILLED;
    filled && full && then == FILLED + 1
}

fn waits_by_three(
    alloc: Global,
    cache: &Cache<RealWorld>,
    seat: &mut PoolSeat<RealWorld>,
    second: &mut PoolSeat<RealWorld>,
    third: &mut PoolSeat<RealWorld>,
) -> bool
    requires seat { IsSeatOf (pool_of cache.now) seat.old }
    requires second { IsSeatOf (pool_of cache.now) second.old }
    requires third { IsSeatOf (pool_of cache.now) third.old }
    requires bytes { (sizes_of (pool_of cache.now)).min_block ≡ 64 }
    requires sets { (sizes_of (pool_of cache.now)).sets ≡ 1 }
    requires arenas { (sizes_of (pool_of cache.now)).arenas ≡ 1 }
    requires nothing { HasNothing (view seat.old) }
    requires free { HasNothing (view second.old) }
    requires third_free { HasNothing (view third.old) }
{
    let mut store = Pattern::new(0);
    match Evictor::new(alloc, cache) {
        Ok(mut evictor) => waits_for_the_held(cache, seat, second, third, &mut evictor, &mut store),
        Err(_) => false,
    }
}

fn held_ranges_stay(alloc: Global) -> bool {
    match Cache::<RealWorld>::create(alloc, GEOMETRY, 0, 3) {
        Ok((cache, mut seat)) => {
            let mut second = split(cache.pool(), &mut seat, 2);
            let mut third = split(cache.pool(), &mut second, 1);
            waits_by_three(alloc, &cache, &mut seat, &mut second, &mut third)
        }
        Err(_) => false,
    }
}

#[test]
fn what_is_held_stays(rt: HostRuntime) {
    assert!(rt; held_ranges_stay(rt.alloc()));
}
