ghost use Rattle.buffer_pool.specs.Bids.{HasNoBid};

use pool_rule::TableSeat;
use std::marker::PhantomData;

/// A seat at a pool: what one thread works on the pool with.
///
/// Contracts see its view: what it knows and has. Between two calls it has no bid, a count that holds nothing.
#[derive(Drop)]
pub struct PoolSeat<W> {
    pub(crate) seat: TableSeat,
    pub(crate) world: PhantomData<W>,
    pub ghost no_bid: { HasNoBid seat.me.0 },
}
