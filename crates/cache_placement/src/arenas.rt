// The arenas, asked in order for a free block.
ghost use Rattle.std.specs.Prelude.{◌≡◌, ◌<◌, ◌≤◌, ℕ, length, slice_index};
ghost use Rattle.buffer_pool.specs.Pools.{IsSameSeat, IsSeatOf, seat_id, sizes_of, view};
ghost use Rattle.cache_placement.specs.Steps.{Asks, HoldsAsked};

use buddy_arena::find;
use buffer_pool::{Grant, Pool, PoolSeat, WordName, grant, look};
use outside::World;

/// What the arenas gave.
pub(crate) enum Asked {
    /// A block.
    Got(Grant),
    /// Another seat changed the arena's word between the load and the exchange, which found this word.
    Raced(u64),
    /// None of the arenas has a free block of the order.
    Full,
}

/// Asks the arenas from one on, below number `until`, in order, and takes the first block that `find` gives.
///
/// Each arena's word is loaded once, and put into `words`.
pub(crate) fn ask<W: World>(
    pool: &Pool<W>,
    seat: &mut PoolSeat<W>,
    order: u32,
    arena: u32,
    until: u32,
    words: &mut [u64],
) -> Asked
    requires seat { IsSeatOf pool.now seat.old }
    requires order { order ≤ 6 }
    requires arena { arena ≤ until }
    requires until { (until ≤ (sizes_of pool.now).arenas) × (until ≤ 64) }
    requires words { length words.old ≡ 64 }
    ensures seat { IsSameSeat pool.now seat.old seat.new }
    ensures token { HoldsAsked pool.now seat.new order result }
    ensures below { (i : ℕ) → i < arena → slice_index words.new i ≡ slice_index words.old i }
    ensures past { (i : ℕ) → until ≤ i → slice_index words.new i ≡ slice_index words.old i }
    ensures made { Asks W.files (sizes_of pool.now) (seat_id seat.old) order words.new until arena (view seat.old) (view seat.new) result }
{
    buffer_pool::laws::found_blocks_can_be_granted();
    if arena == until {
        return Asked::Full;
    }
    let word = look(pool, seat, WordName::Arena(arena));
    words[arena as usize] = word;
    match find(word, order) {
        None => ask(pool, seat, order, arena + 1, until, words),
        Some(offset) => match grant(pool, seat, 64 * arena + offset, order, word) {
            Ok(block) => Asked::Got(block),
            Err(lost) => Asked::Raced(lost.saw),
        },
    }
}
