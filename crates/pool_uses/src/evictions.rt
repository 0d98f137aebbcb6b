//! Buffers that are evicted: a block serves again, and a buffer that is held stays.

ghost use Rattle.std.specs.Prelude.{◌≡◌, ◌<◌, Err, IfSome};
ghost use Rattle.pool_rule.specs.Layout.{headers_of};
ghost use Rattle.buffer_pool.specs.Made.{Evicts};
ghost use Rattle.buffer_pool.specs.Pools.{IsGrantOf, IsPinOf, IsSameSeat, IsSeatOf, block_of, pin_header, seat_id, sizes_of, view};
ghost use Rattle.pool_uses.specs.Evictions.{GrantsAgain};

use buddy_arena::find;
use buffer_pool::{
    Grant, Pin, Pool, PoolSeat, WordName, begin_evict, grant, look, release, ungrant,
};
use outside::World;
use pool_model::Block;

/// Evicts a header's buffer, gives its block back, and grants what is then found of the same order in the same arena.
///
/// `None` comes where the buffer is held or isn't live, or the block that was found was lost to another seat; then the seat
/// has no block.
pub fn evict_and_grant<W: World>(
    pool: &Pool<W>,
    seat: &mut PoolSeat<W>,
    header: u32,
) -> Option<Grant>
    requires seat { IsSeatOf pool.now seat.old }
    requires header { header < headers_of (sizes_of pool.now) }
    ensures seat { IsSameSeat pool.now seat.old seat.new }
    ensures token { IfSome result (λ t. IsGrantOf pool.now seat.new t) }
    ensures made { let made = GrantsAgain W.files (sizes_of pool.now) (seat_id seat.old) header in
        IfSome result (λ t. made (block_of t) (view seat.old) (view seat.new)) }
{
    buffer_pool::laws::found_blocks_can_be_granted();
    buddy_arena::laws::buddy_is_clear_block();
    let Ok(evicting) = begin_evict(pool, seat, header) else {
        return None;
    };
    let Block { place, order } = evicting.block();
    let granted = release(pool, seat, evicting);
    ungrant(pool, seat, granted);
    let arena = place / 64;
    let word = look(pool, seat, WordName::Arena(arena));
    match find(word, order) {
        Some(offset) => match grant(pool, seat, 64 * arena + offset, order, word) {
            Ok(again) => Some(again),
            Err(_) => None,
        },
        None => None,
    }
}

/// Tries to evict a buffer that the seat holds. It is refused, whatever the other seats do: the pin is still the seat's.
/// Answers the word by which it was refused.
pub fn try_to_evict<W: World>(pool: &Pool<W>, seat: &mut PoolSeat<W>, pin: &Pin) -> u64
    requires seat { IsSeatOf pool.now seat.old }
    requires token { IsPinOf pool.now seat.old pin.now }
    ensures seat { IsSameSeat pool.now seat.old seat.new }
    ensures token { IsPinOf pool.now seat.new pin.now }
    ensures refused { let evicts = Evicts W.files (sizes_of pool.now) (seat_id seat.old) (pin_header pin.now) in
        evicts (view seat.old) (view seat.new) (Err (record { word = result })) }
{
    match begin_evict(pool, seat, pin.header()) {
        Ok(evicting) => {
            let granted = release(pool, seat, evicting);
            ungrant(pool, seat, granted);
            0
        }
        Err(held) => held.word,
    }
}
