//! Holds of live buffers.

ghost use Rattle.std.specs.Prelude.{◌≡◌, ◌^◌, ◌<◌, ℕ, IfOk};
ghost use Rattle.buffer_word.specs.KeyWord.{IsKey};
ghost use Rattle.pool_rule.specs.declared.view.Hold.TheVariants.{Free};
ghost use Rattle.pool_rule.specs.declared.word_step.WordStep.TheVariants.{Uncounted};
ghost use Rattle.pool_rule.specs.Layout.{headers_of};
ghost use Rattle.pool_rule.specs.Seats.{mark_at};
ghost use Rattle.pool_rule.specs.WordSteps.{block_in};
ghost use Rattle.buffer_pool.specs.Made.{Makes, Pins};
ghost use Rattle.buffer_pool.specs.Pools.{IsPinOf, IsSameSeat, IsSeatOf, pin_header, pin_key, seat_id, sizes_of, view};

use crate::{NotPinned, Pin, Pool, PoolSeat, WordName};
use buffer_word::{Key, pack_key};
use outside::World;
use pool_model::Block;

/// The block in the state word of a buffer.
pub(crate) fn block_in_word(word: u64) -> Block
    requires { word < 2 ^ 44 }
    ensures { result ≡ block_in word }
{
    Block {
        place: (word >> 24) as u32,
        order: (word >> 20 & 0xF) as u32,
    }
}

/// Pins a header's buffer, if it is live and has the key.
///
/// One fetch_add on the header's state decides: the count is a pin where the word was that of a live buffer. Then the key
/// word is loaded, since the buffer may be another's by then; while it is pinned its key can't change.
///
/// `Busy` comes exactly where the fetch_add gave a word that isn't that of a live buffer, `Other` exactly where it gave one,
/// and the load then gave another key word. After either the count is taken back, whatever became of the header meanwhile.
pub fn pin<W: World>(
    pool: &Pool<W>,
    seat: &mut PoolSeat<W>,
    header: u32,
    key: Key,
) -> Result<Pin, NotPinned>
    requires seat { IsSeatOf pool.now seat.old }
    requires header { header < headers_of (sizes_of pool.now) }
    requires key { IsKey key }
    requires free { (mark_at (view seat.old) header).hold ≡ Free }
    ensures seat { IsSameSeat pool.now seat.old seat.new }
    ensures header { IfOk result (λ p. pin_header p ≡ header) }
    ensures key { IfOk result (λ p. pin_key p ≡ key) }
    ensures token { IfOk result (λ p. IsPinOf pool.now seat.new p) }
    ensures made { Pins W.files (sizes_of pool.now) (seat_id seat.old) header key (view seat.old) (view seat.new) result }
{
    buffer_word::laws::word_tells_key();
    let word = pool.words.count_up(&mut seat.seat, header);
    if word % 16 != 0 {
        pool.words.count_down(&mut seat.seat, header);
        return Err(NotPinned::Busy { word });
    }
    let found = pool.words.look(&mut seat.seat, WordName::KeyOf(header));
    if found != pack_key(key) {
        pool.words.count_down(&mut seat.seat, header);
        return Err(NotPinned::Other { key: found });
    }
    let block = block_in_word(word);
    Ok(Pin { header, block, key })
}

/// Lets a buffer go, in one step: a fetch_sub on its header's state.
pub fn unpin<W: World>(pool: &Pool<W>, seat: &mut PoolSeat<W>, pin: Pin)
    requires seat { IsSeatOf pool.now seat.old }
    requires token { IsPinOf pool.now seat.old pin }
    ensures seat { IsSameSeat pool.now seat.old seat.new }
    ensures made { (found : ℕ) × Makes W.files pool.now seat.old seat.new (Uncounted (pin_header pin) found) }
{
    let Pin {
        header: held,
        block: _,
        key: _,
    } = pin;
    pool.words.count_down(&mut seat.seat, held);
}
