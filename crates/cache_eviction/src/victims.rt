//! The policy's victims are tried in their order.

ghost use Rattle.std.specs.Prelude.{◌≡◌, ◌+◌, ◌≤◌, ℕ, length};
ghost use Rattle.pool_rule.specs.Layout.{headers_of};
ghost use Rattle.pool_rule.specs.Seats.{granted_at, mark_at};
ghost use Rattle.buffer_pool.specs.Pools.{IsSameSeat, IsSeatOf, seat_id, sizes_of, view};
ghost use Rattle.cache_eviction.specs.Victims.{EvictsVictim};

use crate::evict;
use buffer_pool::{Pool, PoolSeat};
use lrfu_policy::{Policy, Rank};
use outside::World;
use pool_model::Block;

/// A header whose buffer was evicted, and the block that the buffer had.
#[derive(Clone, Copy)]
pub struct Victim {
    pub header: u32,
    pub block: Block,
}

/// Evicts the first buffer that can be had among `count` headers from `first` on: the policy's victims of that range are tried in
/// their order. The one that goes is forgotten. `None` comes where each victim was refused.
///
/// It is meant for the few ways of a set: each header of the range is looked at for each victim.
///
/// The policy has as many headers as the pool. The seat has what it had before, whatever the answer.
pub fn evict_victim<W: World>(
    pool: &Pool<W>,
    seat: &mut PoolSeat<W>,
    policy: &mut Policy,
    first: u32,
    count: u32,
) -> Option<Victim>
    requires seat { IsSeatOf pool.now seat.old }
    requires entries { length policy.old.entries ≡ headers_of (sizes_of pool.now) }
    requires range { first + count ≤ length policy.old.entries }
    ensures seat { IsSameSeat pool.now seat.old seat.new }
    ensures entries { length policy.new.entries ≡ length policy.old.entries }
    ensures evicts { let evicts = EvictsVictim W.files (sizes_of pool.now) (seat_id seat.old) first count in
        evicts policy.old policy.new (view seat.old) (view seat.new) result }
    ensures marks { (other : ℕ) → mark_at (view seat.new) other ≡ mark_at (view seat.old) other }
    ensures grants { (place : ℕ) → granted_at (view seat.new) place ≡ granted_at (view seat.old) place }
{
    lrfu_policy::laws::walk_ends();
    let mut after: Option<Rank> = None;
    while let Some(rank) = policy.next_among(first, count, after) {
        let header = rank.header;
        if let Ok(block) = evict(pool, seat, header) {
            policy.forget(header);
            return Some(Victim { header, block });
        }
        after = Some(rank);
    }
    None
}
