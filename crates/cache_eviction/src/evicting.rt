//! One header's buffer is evicted.

ghost use Rattle.std.specs.Prelude.{◌≡◌, ◌<◌, ℕ, IfOk};
ghost use Rattle.pool_rule.specs.Layout.{headers_of};
ghost use Rattle.pool_rule.specs.Seats.{granted_at, mark_at};
ghost use Rattle.buffer_pool.specs.Pools.{IsBlockOf, IsSameSeat, IsSeatOf, seat_id, sizes_of, view};
ghost use Rattle.cache_eviction.specs.Evictions.{Tries};

use buffer_pool::{Held, Pool, PoolSeat, begin_evict, release, ungrant};
use outside::World;
use pool_model::Block;

/// Evicts a header's buffer, if it is live and nobody holds it: its header is released, and its block is given back. Answers the
/// block.
///
/// `Held` comes where `begin_evict` answers it, with its word. The seat has what it had before, whatever the answer.
pub fn evict<W: World>(pool: &Pool<W>, seat: &mut PoolSeat<W>, header: u32) -> Result<Block, Held>
    requires seat { IsSeatOf pool.now seat.old }
    requires header { header < headers_of (sizes_of pool.now) }
    ensures seat { IsSameSeat pool.now seat.old seat.new }
    ensures block { IfOk result (λ b. IsBlockOf pool.now b) }
    ensures tries { Tries W.files (sizes_of pool.now) (seat_id seat.old) header (view seat.old) (view seat.new) result }
    ensures marks { (other : ℕ) → mark_at (view seat.new) other ≡ mark_at (view seat.old) other }
    ensures grants { (place : ℕ) → granted_at (view seat.new) place ≡ granted_at (view seat.old) place }
{
    match begin_evict(pool, seat, header) {
        Ok(evicting) => {
            let block = evicting.block();
            let granted = release(pool, seat, evicting);
            ungrant(pool, seat, granted);
            Ok(block)
        }
        Err(held) => Err(held),
    }
}
