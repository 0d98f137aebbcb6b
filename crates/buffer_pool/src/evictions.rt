//! A buffer is taken out of the pool.

ghost use Rattle.std.specs.Prelude.{◌≡◌, ◌<◌, ℕ, IfOk};
ghost use Rattle.pool_rule.specs.declared.word_step.WordStep.TheVariants.{HeaderReleased};
ghost use Rattle.pool_rule.specs.Layout.{headers_of};
ghost use Rattle.buffer_pool.specs.Made.{Evicts, Makes};
ghost use Rattle.buffer_pool.specs.Pools.{IsEvictingOf, IsGrantOf, IsSameSeat, IsSeatOf, block_of, evicting_block, evicting_header};
ghost use Rattle.buffer_pool.specs.Pools.{seat_id, sizes_of, view};

use crate::pins::block_in_word;
use crate::{Evicting, Grant, Held, Pool, PoolSeat, WordName};
use outside::World;

/// Flags and count lie below the order in a state word: both are 0 in that of a live buffer that nobody holds.
const ORDER_UNIT: u64 = 1 << 20;

/// Begins to evict a header's buffer, if it is live and nobody holds it. Nobody can pin it from then on.
///
/// One load of the header's state, and if it shows a live buffer without a count, one exchange from that word. The exchange
/// decides: a count that was added since, by a pin or a bid, makes it fail.
///
/// `Held` comes only where the load gave a word that isn't that of a live buffer without a count, or where the exchange gave
/// another word than the load; it has that word. The pool is then as it was.
pub fn begin_evict<W: World>(
    pool: &Pool<W>,
    seat: &mut PoolSeat<W>,
    header: u32,
) -> Result<Evicting, Held>
    requires seat { IsSeatOf pool.now seat.old }
    requires header { header < headers_of (sizes_of pool.now) }
    ensures seat { IsSameSeat pool.now seat.old seat.new }
    ensures header { IfOk result (λ e. evicting_header e ≡ header) }
    ensures token { IfOk result (λ e. IsEvictingOf pool.now seat.new e) }
    ensures made { Evicts W.files (sizes_of pool.now) (seat_id seat.old) header (view seat.old) (view seat.new) result }
{
    let seen = pool.words.look(&mut seat.seat, WordName::State(header));
    if seen % ORDER_UNIT != 0 {
        return Err(Held { word: seen });
    }
    let word = pool.words.begin_evict(&mut seat.seat, header, seen);
    if word != seen {
        return Err(Held { word });
    }
    let block = block_in_word(seen);
    Ok(Evicting { header, block })
}

/// Releases the header of an evicted buffer, in one step: a fetch_add on its state. The header can be opened again, once no
/// bid is left on it, and the buffer's block is a grant of the seat's.
pub fn release<W: World>(pool: &Pool<W>, seat: &mut PoolSeat<W>, evicting: Evicting) -> Grant
    requires seat { IsSeatOf pool.now seat.old }
    requires token { IsEvictingOf pool.now seat.old evicting }
    ensures seat { IsSameSeat pool.now seat.old seat.new }
    ensures block { block_of result ≡ evicting_block evicting }
    ensures token { IsGrantOf pool.now seat.new result }
    ensures made { let step = HeaderReleased (evicting_header evicting) (evicting_block evicting) in
        (found : ℕ) × Makes W.files pool.now seat.old seat.new (step found) }
{
    let Evicting { header, block } = evicting;
    pool.words.release(&mut seat.seat, header, block);
    Grant { block }
}
