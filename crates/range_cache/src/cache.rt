ghost use Rattle.std.specs.Prelude.{◌≡◌, ◌↔◌, [], Some, length, IfErr, IfOk};
ghost use Rattle.pool_rule.specs.Rule.{first_words};
ghost use Rattle.pool_rule.specs.Seats.{HasNothing};
ghost use Rattle.buffer_pool.specs.Pools.{IsInRange, IsSeatOf, seat_id, sizes_of, view};

use buffer_pool::{Geometry, OpenFault, Pool, PoolSeat};
use outside::World;
use std::alloc::Global;

/// A cache of ranges of a world's files, which any number of threads share. Each works on it through a seat of its own.
#[derive(Drop)]
pub struct Cache<W: World> {
    pub(crate) pool: Pool<W>,
    /// The ticks after which a touch counts half.
    pub(crate) half_life: u64,
}

impl<W: World> Cache<W> {
    ghost use Rattle.range_cache.specs.Caches.{half_life_of, pool_of};

    /// Makes a cache, and its first seat, which has all `seats` numbers and knows the pool's words. All memory of the cache is
    /// taken here.
    ///
    /// `BadGeometry` comes exactly where the smallest block isn't a power of two from 64 to 65,536 bytes, or the arenas
    /// aren't from 1 to 64, or the sets from 1 to 4,096, or the seats from 1 to 64. `NoMemory` comes for want of memory
    /// alone.
    pub fn create(
        alloc: Global,
        geometry: Geometry,
        half_life: u64,
        seats: u32,
    ) -> Result<(Cache<W>, PoolSeat<W>), OpenFault>
        ensures in_range { IfOk result (λ r. IsInRange geometry seats) }
        ensures refused { IfErr result (λ e. (e ≡ OpenFault.BadGeometry) ↔ (IsInRange geometry seats → ⊥)) }
        ensures sizes { IfOk result (λ r. sizes_of (pool_of r.0) ≡ geometry) }
        ensures half_life { IfOk result (λ r. half_life_of r.0 ≡ half_life) }
        ensures seat { IfOk result (λ r. IsSeatOf (pool_of r.0) r.1 × (seat_id r.1 ≡ 0)) }
        ensures words { IfOk result (λ r. (view r.1).known ≡ Some (first_words geometry)) }
        ensures numbers { IfOk result (λ r. length (view r.1).numbers ≡ seats) }
        ensures nothing { IfOk result (λ r. HasNothing (view r.1) × ((view r.1).trail ≡ [])) }
    {
        match Pool::create(alloc, geometry, seats) {
            Ok((pool, seat)) => Ok((Cache { pool, half_life }, seat)),
            Err(fault) => Err(fault),
        }
    }

    /// After how many ticks a touch counts half; 0 where it always counts whole.
    pub fn half_life(&self) -> u64
        ensures { result ≡ half_life_of self.now }
    {
        self.half_life
    }

    /// The cache's pool, for those who make single steps on it.
    pub fn pool(&self) -> &Pool<W>
        ensures { result.now ≡ pool_of self.now }
    {
        &self.pool
    }
}
