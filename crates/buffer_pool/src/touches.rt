//! The clock, and how often and how lately headers were touched. These words stand for nothing of the pool.

ghost use Rattle.std.specs.Prelude.{◌≡◌, ◌+◌, ◌%◌, ◌^◌, ◌<◌, ℕ};
ghost use Rattle.pool_rule.specs.declared.geometry.WordName.TheVariants.{Clock, Touches};
ghost use Rattle.pool_rule.specs.declared.word_step.WordStep.TheVariants.{Updated};
ghost use Rattle.pool_rule.specs.Layout.{headers_of};
ghost use Rattle.buffer_pool.specs.Made.{Makes, MakesAll, touch_steps};
ghost use Rattle.buffer_pool.specs.Pools.{IsSameSeat, IsSeatOf, seat_id, sizes_of, view};

use crate::{Pool, PoolSeat, WordName};
use outside::World;

/// Takes a tick of the clock, in one step: a fetch_add. Answers the clock's value after it, which wraps at 64 bits.
pub fn tick<W: World>(pool: &Pool<W>, seat: &mut PoolSeat<W>) -> u64
    requires seat { IsSeatOf pool.now seat.old }
    ensures seat { IsSameSeat pool.now seat.old seat.new }
    ensures made { (found : ℕ) × (result ≡ (found + 1) % 2 ^ 64)
        × Makes W.files pool.now seat.old seat.new (Updated Clock found result) }
{
    pool.words
        .increase(&mut seat.seat, WordName::Clock)
        .wrapping_add(1)
}

/// Touches a header at a tick, in two steps: a fetch_add of 1 to its touches, which wraps at 64 bits, and a fetch_max that
/// raises its last tick to that one.
pub fn touch<W: World>(pool: &Pool<W>, seat: &mut PoolSeat<W>, header: u32, tick: u64)
    requires seat { IsSeatOf pool.now seat.old }
    requires header { header < headers_of (sizes_of pool.now) }
    ensures seat { IsSameSeat pool.now seat.old seat.new }
    ensures made { (touches last : ℕ)
        × MakesAll W.files pool.now seat.old seat.new (touch_steps header tick touches last) }
{
    pool.words
        .increase(&mut seat.seat, WordName::Touches(header));
    pool.words
        .raise(&mut seat.seat, WordName::Last(header), tick);
}

/// Takes a header's touches, in one step: a swap for 0. Answers how many there were.
pub fn take_touches<W: World>(pool: &Pool<W>, seat: &mut PoolSeat<W>, header: u32) -> u64
    requires seat { IsSeatOf pool.now seat.old }
    requires header { header < headers_of (sizes_of pool.now) }
    ensures seat { IsSameSeat pool.now seat.old seat.new }
    ensures made { let step = Updated (Touches header) result 0 in
        Makes W.files pool.now seat.old seat.new step }
{
    pool.words.clear(&mut seat.seat, WordName::Touches(header))
}
