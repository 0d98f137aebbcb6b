//! Seats that grant blocks and give them back at random.

ghost use Rattle.std.specs.Prelude.{◌≡◌, ◌<◌, ◌≤◌};
ghost use Rattle.pool_rule.specs.Seats.{HasNothing};
ghost use Rattle.buffer_pool.specs.Pools.{IsSameSeat, IsSeatOf, sizes_of, view};

use buddy_arena::find;
use buffer_pool::{Pool, PoolSeat, WordName, grant, look, ungrant};
use outside::World;

/// Looks for a block of the order in an arena, and if there is one, grants it and gives it back.
pub fn turn<W: World>(pool: &Pool<W>, seat: &mut PoolSeat<W>, arena: u32, order: u32)
    requires seat { IsSeatOf pool.now seat.old }
    requires arena { arena < (sizes_of pool.now).arenas }
    requires few { (sizes_of pool.now).arenas ≤ 64 }
    requires order { order ≤ 6 }
    requires nothing { HasNothing (view seat.old) }
    ensures seat { IsSameSeat pool.now seat.old seat.new }
    ensures nothing { HasNothing (view seat.new) }
{
    buffer_pool::laws::found_blocks_can_be_granted();
    let word = look(pool, seat, WordName::Arena(arena));
    match find(word, order) {
        Some(offset) => match grant(pool, seat, 64 * arena + offset, order, word) {
            Ok(grant) => ungrant(pool, seat, grant),
            Err(_) => {}
        },
        None => {}
    }
}

/// Takes turns with orders that look random.
pub fn take_turns<W: World>(
    pool: &Pool<W>,
    mut seat: PoolSeat<W>,
    arena: u32,
    turns: u32,
    seed: u32,
) -> PoolSeat<W>
    requires seat { IsSeatOf pool.now seat }
    requires arena { arena < (sizes_of pool.now).arenas }
    requires few { (sizes_of pool.now).arenas ≤ 64 }
    requires nothing { HasNothing (view seat) }
    ensures seat { IsSeatOf pool.now result }
    ensures nothing { HasNothing (view result) }
{
    let mut state = seed;
    for _ in 0..turns {
        state = state.wrapping_mul(1_664_525).wrapping_add(1_013_904_223);
        turn(pool, &mut seat, arena, (state >> 16) % 7);
    }
    seat
}
