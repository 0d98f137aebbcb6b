// A victim that can't be had is passed over, and the next one goes.
ghost use Rattle.std.specs.Prelude.{◌≡◌, length};
ghost use Rattle.buffer_pool.specs.Pools.{IsSameSeat, IsSeatOf, sizes_of};

use buffer_pool::{Geometry, Key, Pool, PoolSeat, WordName, look, touch, unpin};
use cache_consult::consult;
use cache_eviction::evict_victim;
use lrfu_policy::Policy;
use outside::RealWorld;
use pool_uses::publish_range;
use std::alloc::Global;

const KEY: Key = Key {
    file: 3,
    at: 1_000,
    len: 40,
};

/// Whether a buffer is brought into header 0 and let go. It is touched twice then, and header 5, which has no buffer, once.
fn brings_in(pool: &Pool<RealWorld>, seat: &mut PoolSeat<RealWorld>) -> bool
    requires seat { IsSeatOf pool.now seat.old }
    requires sets { (sizes_of pool.now).sets ≡ 1 }
    requires arenas { (sizes_of pool.now).arenas ≡ 1 }
    requires bytes { (sizes_of pool.now).min_block ≡ 64 }
    ensures seat { IsSameSeat pool.now seat.old seat.new }
{
    let bytes = [7; 40];
    match publish_range(pool, seat, 0, KEY, 0, 0, 0, &bytes) {
        Some(pin) => {
            unpin(pool, seat, pin);
            touch(pool, seat, 5, 1);
            touch(pool, seat, 0, 2);
            touch(pool, seat, 0, 3);
            true
        }
        None => false,
    }
}

/// Whether header 0 is evicted from a policy whose first victim is header 5, which is then the only one and can't be had.
fn goes_out(pool: &Pool<RealWorld>, seat: &mut PoolSeat<RealWorld>, policy: &mut Policy) -> bool
    requires seat { IsSeatOf pool.now seat.old }
    requires sets { (sizes_of pool.now).sets ≡ 1 }
    requires arenas { (sizes_of pool.now).arenas ≡ 1 }
    requires entries { length policy.old.entries ≡ 8 }
{
    consult(pool, seat, policy);
    let went = evict_victim(pool, seat, policy, 0, 8);
    let again = evict_victim(pool, seat, policy, 0, 8);
    let left = policy.next_victim(None);
    let bits = look(pool, seat, WordName::Arena(0));
    match (went, left) {
        (Some(victim), Some(rank)) => {
            victim.header == 0
                && victim.block.place == 0
                && rank.header == 5
                && again.is_none()
                && bits == 0
        }
        _ => false,
    }
}

fn evicts(alloc: Global) -> bool {
    let geometry = Geometry {
        min_block: 64,
        arenas: 1,
        sets: 1,
    };
    let Ok(mut policy) = Policy::new(alloc, 8, 0) else {
        return false;
    };
    match Pool::<RealWorld>::create(alloc, geometry, 1) {
        Ok((pool, mut seat)) => {
            brings_in(&pool, &mut seat) && goes_out(&pool, &mut seat, &mut policy)
        }
        Err(_) => false,
    }
}

#[test]
fn a_victim_that_is_refused_is_passed_over(rt: HostRuntime) {
    assert!(rt; evicts(rt.alloc()));
}
