//! A header is tried.
ghost use Rattle.std.specs.Prelude.{◌≡◌, ◌<◌, ℕ, None, IfOk, OnErr, OnOk, length};
ghost use Rattle.lrfu_policy.specs.Policy.{with_entry};
ghost use Rattle.pool_rule.specs.Layout.{headers_of};
ghost use Rattle.pool_rule.specs.Seats.{granted_at, mark_at};
ghost use Rattle.buffer_pool.specs.Pools.{IsBlockOf, IsSameSeat, IsSeatOf, seat_id, sizes_of, view};
ghost use Rattle.cache_eviction.specs.Evictions.{Tries};
ghost use Rattle.cache_eviction.specs.Order.{IsOneTry};

use buffer_pool::{Held, Pool, PoolSeat};
use cache_eviction::evict;
use lrfu_policy::Policy;
use outside::World;
use pool_model::Block;

/// Evicts a header's buffer, if it can be had, and has the policy forget it.
pub(crate) fn try_header<W: World>(
    pool: &Pool<W>,
    seat: &mut PoolSeat<W>,
    policy: &mut Policy,
    header: u32,
) -> Result<Block, Held>
    requires seat { IsSeatOf pool.now seat.old }
    requires header { header < headers_of (sizes_of pool.now) }
    requires entries { length policy.old.entries ≡ headers_of (sizes_of pool.now) }
    ensures seat { IsSameSeat pool.now seat.old seat.new }
    ensures entries { length policy.new.entries ≡ length policy.old.entries }
    ensures kept { OnErr result (policy.new ≡ policy.old) }
    ensures forgot { OnOk result (policy.new ≡ with_entry header None policy.old) }
    ensures block { IfOk result (λ b. IsBlockOf pool.now b) }
    ensures tries { Tries W.files (sizes_of pool.now) (seat_id seat.old) header (view seat.old) (view seat.new) result }
    ensures one { IsOneTry W.files (sizes_of pool.now) (seat_id seat.old) header policy.old policy.new (view seat.old) (view seat.new) }
    ensures marks { (other : ℕ) → mark_at (view seat.new) other ≡ mark_at (view seat.old) other }
    ensures grants { (place : ℕ) → granted_at (view seat.new) place ≡ granted_at (view seat.old) place }
{
    match evict(pool, seat, header) {
        Ok(block) => {
            policy.forget(header);
            Ok(block)
        }
        Err(held) => Err(held),
    }
}
