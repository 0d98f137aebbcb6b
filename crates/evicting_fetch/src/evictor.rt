ghost use Rattle.std.specs.Prelude.{◌≡◌, ◌-◌, ◌^◌, ◌<◌, None, IfOk, replicate};
ghost use Rattle.pool_rule.specs.Layout.{headers_of};
ghost use Rattle.buffer_pool.specs.Pools.{IsSameSeat, IsSeatOf, seat_id, sizes_of, view};
ghost use Rattle.cache_placement.specs.Placements.{HoldsPlaced};
ghost use Rattle.cache_room.specs.Quiet.{AreKnown};
ghost use Rattle.cache_room.specs.Rooms.{IsRoom, IsWanted};
ghost use Rattle.cache_room.specs.Searches.{Ranks, why_of};
ghost use Rattle.evicting_fetch.specs.Evictors.{IsEvictorOf, policy_of};
ghost use Rattle.range_cache.specs.Caches.{half_life_of, pool_of};

use buffer_pool::{Pool, PoolSeat};
use cache_room::{Room, Wanted, place_or_evict};
use lrfu_policy::Policy;
use outside::{NoMemory, World};
use range_cache::Cache;
use std::alloc::Global;

/// What decides which buffers of a cache are evicted: its policy, and a mark for each header that a call has tried.
#[derive(Drop)]
pub struct Evictor {
    pub(crate) policy: Policy,
    pub(crate) tried: Vec<bool>,
}

impl Evictor {
    /// That of a cache, whose policy knows nothing yet. It takes all memory that evictions ever need, and `NoMemory` comes where that is
    /// refused.
    pub fn new<W: World>(alloc: Global, cache: &Cache<W>) -> Result<Evictor, NoMemory>
        ensures evictor { IfOk result (λ e. IsEvictorOf (pool_of cache.now) e) }
        ensures policy { IfOk result (λ e. policy_of e
            ≡ record { half_life = half_life_of cache.now; entries = replicate (headers_of (sizes_of (pool_of cache.now))) None }) }
    {
        let headers = 8 * cache.pool().geometry().sets;
        let policy = Policy::new(alloc, headers, cache.half_life())?;
        let Ok(tried) = vec![in alloc; false; headers as usize] else {
            return Err(NoMemory);
        };
        Ok(Evictor { policy, tried })
    }

    /// Places a range, and evicts what has to go for it.
    pub(crate) fn place<W: World>(
        &mut self,
        pool: &Pool<W>,
        seat: &mut PoolSeat<W>,
        wanted: Wanted,
        bytes: &[u8],
    ) -> Room
        requires seat { IsSeatOf pool.now seat.old }
        requires evictor { IsEvictorOf pool.now self.old }
        requires known { AreKnown (view seat.old) }
        requires wanted { IsWanted W.files (sizes_of pool.now) wanted bytes.now }
        ensures seat { IsSameSeat pool.now seat.old seat.new }
        ensures evictor { IsEvictorOf pool.now self.new }
        ensures token { HoldsPlaced pool.now seat.new wanted.key result.placed }
        ensures few { result.evicted < 2 ^ 32 - 1 }
        ensures room { IsRoom W.files (sizes_of pool.now) (seat_id seat.old) wanted (view seat.old) (view seat.new) result.evicted
            result.placed }
        ensures ranked { Ranks W.files (sizes_of pool.now) (seat_id seat.old) wanted.first (policy_of self.old) (policy_of self.new)
            (view seat.old) (view seat.new) (why_of result.placed) }
    {
        place_or_evict(pool, seat, &mut self.policy, &mut self.tried, wanted, bytes)
    }
}
