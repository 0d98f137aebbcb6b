// Touches of a pool's headers reach the policy. Without a half-life each touch counts 2^32.
ghost use Rattle.std.specs.Prelude.{◌≡◌, length};
ghost use Rattle.buffer_pool.specs.Pools.{IsSeatOf, sizes_of};

use buffer_pool::{Geometry, Pool, PoolSeat, WordName, look, touch};
use cache_consult::consult;
use lrfu_policy::{Policy, Rank};
use outside::RealWorld;
use std::alloc::Global;

const LEAST: Rank = Rank {
    s: 4_294_967_296,
    e: 0,
    last: 3,
    header: 2,
};

const NEXT: Rank = Rank {
    s: 8_589_934_592,
    e: 0,
    last: 7,
    header: 5,
};

fn has_both(policy: &Policy) -> bool {
    let least = policy.next_victim(None);
    let next = policy.next_victim(least);
    least == Some(LEAST) && next == Some(NEXT) && policy.next_victim(next).is_none()
}

/// Whether three touches of two headers are learnt, are taken then, and stay learnt when nothing was touched since.
fn learns_touches(
    pool: &Pool<RealWorld>,
    seat: &mut PoolSeat<RealWorld>,
    policy: &mut Policy,
) -> bool
    requires seat { IsSeatOf pool.now seat.old }
    requires sets { (sizes_of pool.now).sets ≡ 1 }
    requires entries { length policy.old.entries ≡ 8 }
{
    touch(pool, seat, 5, 7);
    touch(pool, seat, 2, 3);
    touch(pool, seat, 5, 6);
    consult(pool, seat, policy);
    let learnt = has_both(policy);
    let taken = look(pool, seat, WordName::Touches(5)) == 0;
    consult(pool, seat, policy);
    learnt && taken && has_both(policy)
}

fn consults(alloc: Global) -> bool {
    let geometry = Geometry {
        min_block: 64,
        arenas: 1,
        sets: 1,
    };
    let Ok(mut policy) = Policy::new(alloc, 8, 0) else {
        return false;
    };
    match Pool::<RealWorld>::create(alloc, geometry, 1) {
        Ok((pool, mut seat)) => learns_touches(&pool, &mut seat, &mut policy),
        Err(_) => false,
    }
}

#[test]
fn a_consultation_learns_touches(rt: HostRuntime) {
    assert!(rt; consults(rt.alloc()));
}
