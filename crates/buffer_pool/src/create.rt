//! A pool is made.

ghost use Rattle.std.specs.Prelude.{◌≡◌, ◌↔◌, ◌≤◌, [], Some, length, IsTrue, IfOk, IfErr};
ghost use Rattle.pool_rule.specs.Layout.{IsGeometry, AreSeats};
ghost use Rattle.pool_rule.specs.Rule.{first_view, first_words};
ghost use Rattle.pool_rule.specs.Seats.{HasNothing};
ghost use Rattle.buffer_pool.specs.Pools.{IsInRange, IsSeatOf, seat_id, sizes_of, view};

use crate::{Geometry, OpenFault, Pool, PoolSeat};
use outside::World;
use pool_rule::{Setup, Words};
use std::alloc::Global;
use std::marker::PhantomData;

/// Whether the sizes and the number of seats are in their ranges.
fn is_in_range(geometry: Geometry, seats: u32) -> bool
    ensures { IsTrue result ↔ IsInRange geometry seats }
{
    geometry.min_block.is_power_of_two()
        && 64 <= geometry.min_block
        && geometry.min_block <= 65_536
        && 1 <= geometry.arenas
        && geometry.arenas <= 64
        && 1 <= geometry.sets
        && geometry.sets <= 4_096
        && 1 <= seats
        && seats <= 64
}

impl<W: World> Pool<W> {
    /// Makes a pool, and its first seat, which has all `seats` numbers and knows the words.
    ///
    /// Every header is released without a count, and every bit is clear. All memory of the pool is taken here.
    ///
    /// `BadGeometry` comes exactly where the smallest block isn't a power of two from 64 to 65,536 bytes, or the arenas
    /// aren't from 1 to 64, or the sets from 1 to 4,096, or the seats from 1 to 64. `NoMemory` comes for want of memory
    /// alone.
    pub fn create(
        alloc: Global,
        geometry: Geometry,
        seats: u32,
    ) -> Result<(Pool<W>, PoolSeat<W>), OpenFault>
        ensures in_range { IfOk result (λ r. IsInRange geometry seats) }
        ensures refused { IfErr result (λ e. (e ≡ OpenFault.BadGeometry) ↔ (IsInRange geometry seats → ⊥)) }
        ensures sizes { IfOk result (λ r. sizes_of r.0 ≡ geometry) }
        ensures seat { IfOk result (λ r. IsSeatOf r.0 r.1 × (seat_id r.1 ≡ 0)) }
        ensures words { IfOk result (λ r. (view r.1).known ≡ Some (first_words geometry)) }
        ensures numbers { IfOk result (λ r. length (view r.1).numbers ≡ seats) }
        ensures nothing { IfOk result (λ r. HasNothing (view r.1) × ((view r.1).trail ≡ [])) }
        ensures view { IfOk result (λ r. view r.1 ≡ first_view (record { geometry = geometry; seats = seats })) }
    {
        if !is_in_range(geometry, seats) {
            return Err(OpenFault::BadGeometry);
        }
        match Words::open(alloc, Setup { geometry, seats }) {
            Ok((words, seat)) => Ok((
                Pool { words },
                PoolSeat {
                    seat,
                    world: PhantomData,
                },
            )),
            Err(_) => Err(OpenFault::NoMemory),
        }
    }

    /// The sizes that the pool was made with.
    pub fn geometry(&self) -> Geometry
        ensures sizes { result ≡ sizes_of self.now }
        ensures in_range { IsGeometry result }
    {
        self.words.geometry()
    }
}
