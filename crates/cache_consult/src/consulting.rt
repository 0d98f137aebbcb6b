//! The policy is told of touches.

ghost use Rattle.std.specs.Prelude.{◌≡◌, ◌<◌, ℕ, length};
ghost use Rattle.pool_rule.specs.Layout.{headers_of};
ghost use Rattle.pool_rule.specs.Seats.{HasNothing, granted_at};
ghost use Rattle.buffer_pool.specs.Pools.{IsSameSeat, IsSeatOf, seat_id, sizes_of, view};
ghost use Rattle.cache_consult.specs.Consults.{Consults, Learns};

use buffer_pool::{Pool, PoolSeat, WordName, look, take_touches};
use lrfu_policy::Policy;
use outside::World;

/// Tells the policy of one header's touches, if it has any. They are taken before its key and its last tick are loaded, so a touch
/// that comes between is left for the next time.
fn learn<W: World>(pool: &Pool<W>, seat: &mut PoolSeat<W>, policy: &mut Policy, header: u32)
    requires seat { IsSeatOf pool.now seat.old }
    requires header { header < headers_of (sizes_of pool.now) }
    requires entries { length policy.old.entries ≡ headers_of (sizes_of pool.now) }
    ensures seat { IsSameSeat pool.now seat.old seat.new }
    ensures entries { length policy.new.entries ≡ length policy.old.entries }
    ensures learns { let learns = Learns W.files (sizes_of pool.now) (seat_id seat.old) header in
        learns policy.old policy.new (view seat.old) (view seat.new) }
{
    let seen = look(pool, seat, WordName::Touches(header));
    if seen == 0 {
        return;
    }
    let touches = take_touches(pool, seat, header);
    if touches == 0 {
        return;
    }
    let key = look(pool, seat, WordName::KeyOf(header));
    let last = look(pool, seat, WordName::Last(header));
    policy.sync(header, key, touches, last);
}

/// Tells the policy of all touches: goes through the headers by ascending number, takes the touches of each that has any, and
/// syncs its entry with its key word and its last tick.
///
/// The policy has as many headers as the pool. Each header costs one load, and four steps where it was touched. It takes no
/// memory and waits for nobody.
pub fn consult<W: World>(pool: &Pool<W>, seat: &mut PoolSeat<W>, policy: &mut Policy)
    requires seat { IsSeatOf pool.now seat.old }
    requires entries { length policy.old.entries ≡ headers_of (sizes_of pool.now) }
    ensures seat { IsSameSeat pool.now seat.old seat.new }
    ensures entries { length policy.new.entries ≡ length policy.old.entries }
    ensures consults { let consults = Consults W.files (sizes_of pool.now) (seat_id seat.old) (headers_of (sizes_of pool.now)) in
        consults policy.old policy.new (view seat.old) (view seat.new) }
    ensures grants { (place : ℕ) → granted_at (view seat.new) place ≡ granted_at (view seat.old) place }
    ensures nothing { HasNothing (view seat.old) → HasNothing (view seat.new) }
{
    for header in 0..8 * pool.geometry().sets {
        learn(pool, seat, policy, header);
    }
}
