//! What ranges are got with.

use evicting_fetch::Evictor;
use ledgers::CacheTotals;
use outside::{Store, World};
use range_cache::{Cache, PoolSeat};

/// A cache, a seat of it, what decides its evictions, a store, and the counts of how ranges were got. All are borrowed.
#[derive(Drop)]
pub struct Desk<'a, W: World, S: Store<W>> {
    pub cache: &'a Cache<W>,
    pub seat: &'a mut PoolSeat<W>,
    pub evictor: &'a mut Evictor,
    pub store: &'a mut S,
    pub totals: &'a mut CacheTotals,
}
