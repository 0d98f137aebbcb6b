// Two threads grant and give back at once.
ghost use Rattle.std.specs.Prelude.{◌≡◌, ◌≤◌, ◌<◌, IfOk, length};
ghost use Rattle.pool_rule.specs.Seats.{HasNothing};
ghost use Rattle.buffer_pool.specs.Pools.{IsSeatOf, sizes_of, view};

use buffer_pool::{Geometry, OpenFault, Pool, PoolSeat, WordName, join, look, split};
use outside::RealWorld;
use pool_uses::take_turns;
use std::alloc::Global;
use std::test::Fail;
use std::thread;

const TURNS: u32 = 2_000;

/// A pool of one arena and one set, and its seat, which has two numbers.
fn opened(alloc: Global) -> Result<(Pool<RealWorld>, PoolSeat<RealWorld>), OpenFault>
    ensures seat { IfOk result (λ r. IsSeatOf r.0 r.1) }
    ensures arena { IfOk result (λ r. (sizes_of r.0).arenas ≡ 1) }
    ensures numbers { IfOk result (λ r. length (view r.1).numbers ≡ 2) }
    ensures nothing { IfOk result (λ r. HasNothing (view r.1)) }
{
    let geometry = Geometry {
        min_block: 64,
        arenas: 1,
        sets: 1,
    };
    Pool::create(alloc, geometry, 2)
}

#[test]
fn two_threads_leave_no_bit_set(rt: HostRuntime) -> Result<(), Fail> {
    let (pool, mut first) = opened(rt.alloc())?;
    let second = split(&pool, &mut first, 1);
    let shared = &pool;
    let (mut first, second) = thread::join(
        &rt,
        move || -> PoolSeat<RealWorld>
            requires seat { IsSeatOf shared.now first }
            requires arena { (sizes_of shared.now).arenas ≡ 1 }
            requires nothing { HasNothing (view first) }
            ensures seat { IsSeatOf shared.entry.now result }
            ensures nothing { HasNothing (view result) }
        { take_turns(shared, first, 0, TURNS, 1) },
        move || -> PoolSeat<RealWorld>
            requires seat { IsSeatOf shared.now second }
            requires arena { (sizes_of shared.now).arenas ≡ 1 }
            requires nothing { HasNothing (view second) }
            ensures seat { IsSeatOf shared.entry.now result }
            ensures nothing { HasNothing (view result) }
        { take_turns(shared, second, 0, TURNS, 7) },
    );
    join(&pool, &mut first, second);
    assert!(rt; look(&pool, &mut first, WordName::Arena(0)) == 0);
    Ok(())
}
