// Ten thousand steps by a generator: three seats get ranges, hold them for a while and let them go, and a plain machine beside them does
// the same. Answers, evictions and reads are equal.
ghost use Rattle.std.specs.Prelude.{◌≡◌, ◌≤◌, true, IfSome};
ghost use Rattle.pool_rule.specs.Seats.{HasNothing};
ghost use Rattle.buffer_pool.specs.Pools.{IsSameSeat, IsSeatOf, sizes_of, view};
ghost use Rattle.range_cache.specs.Caches.{pool_of};
ghost use Rattle.range_cache.specs.Ranges.{IsRanged, Leaves};
ghost use Rattle.evicting_fetch.specs.Evictors.{IsEvictorOf};

use crate::fetches::{FILE, GEOMETRY, HIT, key_of, told};
use crate::plain::{Plain, evicted_so_far, new_plain, plain_drop, plain_get, was_used};
use buffer_pool::split;
use evicting_fetch::{Evictor, fetch};
use outside::RealWorld;
use rand_core::{Rng, SeedableRng};
use rand_xoshiro::SplitMix64;
use range_cache::{Cache, PoolSeat, Ranged};
use std::alloc::Global;
use test_stores::Pattern;

/// The number of a range, of sixteen. The low half of them is drawn three times as often as the other.
fn number_of(drawn: u64) -> u8
    ensures { result ≤ 15 }
{
    let low = (drawn >> 60) as u8;
    let high = (drawn >> 56 & 15) as u8;
    if low < 8 { low } else { high }
}

/// The bytes of a block of the order of that range, from the smallest to the whole arena.
fn order_of(number: u8) -> u32 {
    u32::from(number % 7)
}

fn len_of(number: u8) -> u32
    ensures { (64 ≤ result) × (result ≤ 4096) }
{
    match order_of(number) {
        0 => 64,
        1 => 128,
        2 => 256,
        3 => 512,
        4 => 1_024,
        5 => 2_048,
        _ => 4_096,
    }
}

/// One get of both, if they give the same by the same evictions and reads. The range is held then.
fn got(
    cache: &Cache<RealWorld>,
    seat: &mut PoolSeat<RealWorld>,
    evictor: &mut Evictor,
    store: &mut Pattern,
    plain: &mut Plain,
    number: u8,
) -> Option<Ranged>
    requires seat { IsSeatOf (pool_of cache.now) seat.old }
    requires evictor { IsEvictorOf (pool_of cache.now) evictor.old }
    requires sizes { (sizes_of (pool_of cache.now)).min_block ≡ 64 }
    requires nothing { HasNothing (view seat.old) }
    requires number { number ≤ 15 }
    ensures seat { IsSameSeat (pool_of cache.now) seat.old seat.new }
    ensures evictor { IsEvictorOf (pool_of cache.now) evictor.new }
    ensures ranged { IfSome result (λ r. IsRanged (pool_of cache.now) seat.new r) }
    ensures leaves { IfSome result (λ r. Leaves (view seat.old) (view seat.new) r) }
{
    let (evicted, reads) = (evicted_so_far(plain), store.reads);
    let how = plain_get(plain, number, order_of(number));
    let more = evicted_so_far(plain).wrapping_sub(evicted);
    let len = len_of(number);
    let key = key_of(number, len);
    let mut scratch = [0; 4_096];
    let scratch = &mut scratch[..len as usize];
    let ranged = fetch(cache, seat, evictor, store, key, FILE, scratch).ok()?;
    let once = if how == HIT { 0 } else { 1 };
    let same = told(&ranged.how) == how && u64::from(ranged.evicted) == more;
    if same && store.reads == reads.wrapping_add(once) {
        return Some(ranged);
    }
    ranged.done(cache, seat);
    None
}

/// Gets by a third seat, each let go at once.
fn inner(
    cache: &Cache<RealWorld>,
    seat: &mut PoolSeat<RealWorld>,
    evictor: &mut Evictor,
    store: &mut Pattern,
    plain: &mut Plain,
    rng: &mut SplitMix64,
) -> bool
    requires seat { IsSeatOf (pool_of cache.now) seat.old }
    requires evictor { IsEvictorOf (pool_of cache.now) evictor.old }
    requires sizes { (sizes_of (pool_of cache.now)).min_block ≡ 64 }
    requires nothing { HasNothing (view seat.old) }
    ensures seat { IsSameSeat (pool_of cache.now) seat.old seat.new }
    ensures evictor { IsEvictorOf (pool_of cache.now) evictor.new }
    ensures nothing { result ≡ true → HasNothing (view seat.new) }
{
    for _ in 0..rng.next_u64() & 3 {
        let number = number_of(rng.next_u64());
        let Some(ranged) = got(cache, seat, evictor, store, plain, number) else {
            return false;
        };
        ranged.done(cache, seat);
        plain_drop(plain, number);
    }
    true
}

/// Gets by a second seat, each held while the third gets.
fn middle(
    cache: &Cache<RealWorld>,
    seat: &mut PoolSeat<RealWorld>,
    third: &mut PoolSeat<RealWorld>,
    evictor: &mut Evictor,
    store: &mut Pattern,
    plain: &mut Plain,
    rng: &mut SplitMix64,
) -> bool
    requires seat { IsSeatOf (pool_of cache.now) seat.old }
    requires third { IsSeatOf (pool_of cache.now) third.old }
    requires evictor { IsEvictorOf (pool_of cache.now) evictor.old }
    requires sizes { (sizes_of (pool_of cache.now)).min_block ≡ 64 }
    requires nothing { HasNothing (view seat.old) }
    requires free { HasNothing (view third.old) }
    ensures seat { IsSameSeat (pool_of cache.now) seat.old seat.new }
    ensures third { IsSameSeat (pool_of cache.now) third.old third.new }
    ensures evictor { IsEvictorOf (pool_of cache.now) evictor.new }
    ensures nothing { result ≡ true → HasNothing (view seat.new) }
    ensures free { result ≡ true → HasNothing (view third.new) }
{
    for _ in 0..rng.next_u64() & 3 {
        let number = number_of(rng.next_u64());
        let Some(ranged) = got(cache, seat, evictor, store, plain, number) else {
            return false;
        };
        let agree = inner(cache, third, evictor, store, plain, rng);
        ranged.done(cache, seat);
        plain_drop(plain, number);
        if !agree {
            return false;
        }
    }
    true
}

/// Gets by a first seat, each held while the others get.
fn outer(
    cache: &Cache<RealWorld>,
    seat: &mut PoolSeat<RealWorld>,
    second: &mut PoolSeat<RealWorld>,
    third: &mut PoolSeat<RealWorld>,
    evictor: &mut Evictor,
    store: &mut Pattern,
    plain: &mut Plain,
    rng: &mut SplitMix64,
) -> bool
    requires seat { IsSeatOf (pool_of cache.now) seat.old }
    requires second { IsSeatOf (pool_of cache.now) second.old }
    requires third { IsSeatOf (pool_of cache.now) third.old }
    requires evictor { IsEvictorOf (pool_of cache.now) evictor.old }
    requires sizes { (sizes_of (pool_of cache.now)).min_block ≡ 64 }
    requires nothing { HasNothing (view seat.old) }
    requires free { HasNothing (view second.old) }
    requires third_free { HasNothing (view third.old) }
{
    for _ in 0..1_100 {
        let number = number_of(rng.next_u64());
        let Some(ranged) = got(cache, seat, evictor, store, plain, number) else {
            return false;
        };
        let agree = middle(cache, second, third, evictor, store, plain, rng);
        ranged.done(cache, seat);
        plain_drop(plain, number);
        if !agree {
            return false;
        }
    }
    true
}

fn three_agree(
    alloc: Global,
    cache: &Cache<RealWorld>,
    seat: &mut PoolSeat<RealWorld>,
    second: &mut PoolSeat<RealWorld>,
    third: &mut PoolSeat<RealWorld>,
    plain: &mut Plain,
) -> bool
    requires seat { IsSeatOf (pool_of cache.now) seat.old }
    requires second { IsSeatOf (pool_of cache.now) second.old }
    requires third { IsSeatOf (pool_of cache.now) third.old }
    requires sizes { (sizes_of (pool_of cache.now)).min_block ≡ 64 }
    requires nothing { HasNothing (view seat.old) }
    requires free { HasNothing (view second.old) }
    requires third_free { HasNothing (view third.old) }
{
    let mut store = Pattern::new(0);
    let mut rng = SplitMix64::seed_from_u64(1);
    match Evictor::new(alloc, cache) {
        Ok(mut evictor) => {
            let (evictor, store) = (&mut evictor, &mut store);
            outer(cache, seat, second, third, evictor, store, plain, &mut rng)
        }
        Err(_) => false,
    }
}

fn both_agree(alloc: Global, half_life: u64) -> bool {
    let mut plain = new_plain(half_life);
    match Cache::<RealWorld>::create(alloc, GEOMETRY, half_life, 3) {
        Ok((cache, mut seat)) => {
            let mut second = split(cache.pool(), &mut seat, 2);
            let mut third = split(cache.pool(), &mut second, 1);
            three_agree(
                alloc,
                &cache,
                &mut seat,
                &mut second,
                &mut third,
                &mut plain,
            ) && was_used(&plain, 5_000, 1_000, 500)
        }
        Err(_) => false,
    }
}

#[test]
fn ten_thousand_steps_are_those_of_the_plain_machine(rt: HostRuntime) {
    assert!(rt; both_agree(rt.alloc(), 0));
    assert!(rt; both_agree(rt.alloc(), 300));
}
