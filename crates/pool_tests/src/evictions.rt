// A buffer that is held, let go and evicted; the clock, and a header's touches.
ghost use Rattle.std.specs.Prelude.{◌≡◌};
ghost use Rattle.buffer_pool.specs.Pools.{IsSameSeat, IsSeatOf, sizes_of};

use buffer_pool::{
    Geometry, Key, Pool, PoolSeat, WordName, look, take_touches, tick, touch, ungrant, unpin,
};
use outside::RealWorld;
use pool_uses::{evict_and_grant, publish_range, try_to_evict};
use std::alloc::Global;

const KEY: Key = Key {
    file: 3,
    at: 1_000,
    len: 40,
};

/// The state word of a live buffer at place 0, of order 0, that is held once.
const HELD: u64 = 0x10;

/// Whether the buffer of header 0 is evicted, its header is released, and its block is granted again and given back.
fn goes_out(pool: &Pool<RealWorld>, seat: &mut PoolSeat<RealWorld>) -> bool
    requires seat { IsSeatOf pool.now seat.old }
    requires sets { (sizes_of pool.now).sets ≡ 1 }
    requires arenas { (sizes_of pool.now).arenas ≡ 1 }
{
    match evict_and_grant(pool, seat, 0) {
        Some(again) => {
            let state = look(pool, seat, WordName::State(0));
            let bits = look(pool, seat, WordName::Arena(0));
            ungrant(pool, seat, again);
            state == 8 && bits == 1 && look(pool, seat, WordName::Arena(0)) == 0
        }
        None => false,
    }
}

/// Whether the buffer of header 0 stays while it is pinned, and can be evicted then.
fn stays_while_held(pool: &Pool<RealWorld>, seat: &mut PoolSeat<RealWorld>) -> bool
    requires seat { IsSeatOf pool.now seat.old }
    requires sets { (sizes_of pool.now).sets ≡ 1 }
    requires arenas { (sizes_of pool.now).arenas ≡ 1 }
    requires bytes { (sizes_of pool.now).min_block ≡ 64 }
{
    let bytes = [7; 40];
    match publish_range(pool, seat, 0, KEY, 0, 0, 0, &bytes) {
        Some(pin) => {
            let word = try_to_evict(pool, seat, &pin);
            unpin(pool, seat, pin);
            word == HELD && goes_out(pool, seat)
        }
        None => false,
    }
}

/// Whether ticks count up, touches are counted until they are taken, and the last tick is the greatest.
fn counts_touches(pool: &Pool<RealWorld>, seat: &mut PoolSeat<RealWorld>) -> bool
    requires seat { IsSeatOf pool.now seat.old }
    requires sets { (sizes_of pool.now).sets ≡ 1 }
    ensures seat { IsSameSeat pool.now seat.old seat.new }
{
    let first = tick(pool, seat);
    let second = tick(pool, seat);
    touch(pool, seat, 5, second);
    touch(pool, seat, 5, first);
    let last = look(pool, seat, WordName::Last(5));
    let touches = take_touches(pool, seat, 5);
    first == 1 && second == 2 && last == 2 && touches == 2 && take_touches(pool, seat, 5) == 0
}

fn evicts(alloc: Global) -> bool {
    let geometry = Geometry {
        min_block: 64,
        arenas: 1,
        sets: 1,
    };
    match Pool::<RealWorld>::create(alloc, geometry, 1) {
        Ok((pool, mut seat)) => {
            counts_touches(&pool, &mut seat) && stays_while_held(&pool, &mut seat)
        }
        Err(_) => false,
    }
}

#[test]
fn a_held_buffer_stays_and_then_goes(rt: HostRuntime) {
    assert!(rt; evicts(rt.alloc()));
}
