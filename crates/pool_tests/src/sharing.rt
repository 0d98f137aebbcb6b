// A range through a pool of the largest sizes, and what refused pins leave.
ghost use Rattle.std.specs.Prelude.{◌≡◌, ◌<◌, length};
ghost use Rattle.pool_rule.specs.Seats.{HasNothing};
ghost use Rattle.buffer_pool.specs.Pools.{IsSeatOf, sizes_of, view};

use buffer_pool::{Geometry, Key, NotPinned, Pool, PoolSeat, WordName, look, pin, split, unpin};
use outside::RealWorld;
use pool_uses::share;
use std::alloc::Global;

/// The last header, and a block of two minimum blocks in the middle of the last arena.
const HEADER: u32 = 32_767;

const PLACE: u32 = 4_064;

/// The header's state word while its buffer is live and held by nobody: order 1, at that place.
const IDLE: u64 = 0x000F_E010_0000;

const KEY: Key = Key {
    file: 3,
    at: 1_000,
    len: 100,
};

/// Bytes that tell their places apart.
fn pattern() -> [u8; 100] {
    let mut bytes = [0; 100];
    for i in 0..100_u8 {
        bytes[i as usize] = i;
    }
    bytes
}

/// Whether a seat reads what another has brought in, and the header is then held by nobody.
fn goes_through(pool: &Pool<RealWorld>, first: &mut PoolSeat<RealWorld>) -> bool
    requires seat { IsSeatOf pool.now first.old }
    requires arenas { (sizes_of pool.now).arenas ≡ 64 }
    requires sets { (sizes_of pool.now).sets ≡ 4096 }
    requires bytes { (sizes_of pool.now).min_block ≡ 64 }
    requires numbers { length (view first.old).numbers ≡ 64 }
{
    let mut second = split(pool, first, 32);
    let bytes = pattern();
    let mut into = [0; 40];
    let shared = share(
        pool,
        first,
        &mut second,
        HEADER,
        KEY,
        PLACE,
        1,
        0,
        &bytes,
        5,
        &mut into,
    );
    shared && into.as_slice() == &bytes[5..45] && look(pool, first, WordName::State(HEADER)) == IDLE
}

fn largest_goes_through(alloc: Global) -> bool {
    let geometry = Geometry {
        min_block: 64,
        arenas: 64,
        sets: 4_096,
    };
    match Pool::<RealWorld>::create(alloc, geometry, 64) {
        Ok((pool, mut seat)) => goes_through(&pool, &mut seat),
        Err(_) => false,
    }
}

/// Whether a pin of a released header is refused as busy, and its word is then as it was: the count was taken back.
fn leaves_no_bid(pool: &Pool<RealWorld>, seat: &mut PoolSeat<RealWorld>) -> bool
    requires seat { IsSeatOf pool.now seat.old }
    requires sets { (sizes_of pool.now).sets ≡ 1 }
    requires nothing { HasNothing (view seat.old) }
{
    match pin(pool, seat, 0, KEY) {
        Ok(held) => {
            unpin(pool, seat, held);
            false
        }
        Err(refused) => {
            refused == NotPinned::Busy { word: 8 } && look(pool, seat, WordName::State(0)) == 8
        }
    }
}

fn released_is_busy(alloc: Global) -> bool {
    let geometry = Geometry {
        min_block: 64,
        arenas: 1,
        sets: 1,
    };
    match Pool::<RealWorld>::create(alloc, geometry, 1) {
        Ok((pool, mut seat)) => leaves_no_bid(&pool, &mut seat),
        Err(_) => false,
    }
}

#[test]
fn a_range_goes_through_the_last_arena(rt: HostRuntime) {
    assert!(rt; largest_goes_through(rt.alloc()));
}

#[test]
fn a_busy_pin_leaves_no_bid(rt: HostRuntime) {
    assert!(rt; released_is_busy(rt.alloc()));
}
