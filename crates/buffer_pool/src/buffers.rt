//! New buffers: a header is opened, its cells are filled, and it is published.

ghost use Rattle.std.specs.Prelude.{◌≡◌, ◌≢◌, ◌^◌, ◌<◌, ◌≤◌, ℕ, List, [], ◌∷◌, length, Some, IfErr, IfOk, OnOk};
ghost use Rattle.buffer_word.specs.KeyWord.{IsKey};
ghost use Rattle.pool_model.specs.Content.{IsRange, cells_of};
ghost use Rattle.pool_rule.specs.declared.geometry.WordName.TheVariants.{State};
ghost use Rattle.pool_rule.specs.declared.view.Claim.TheVariants.{Fresh};
ghost use Rattle.pool_rule.specs.declared.word_step.WordStep.TheVariants.{Missed, Named, Opened, Published};
ghost use Rattle.pool_rule.specs.Layout.{headers_of};
ghost use Rattle.pool_rule.specs.Seats.{mark_at};
ghost use Rattle.buffer_pool.specs.Made.{Makes, MakesAll, cell_in, fill_steps};
ghost use Rattle.buffer_pool.specs.Pools.{HoldsKey, IsContentOf, IsGrantOf, IsNewOf, IsPinOf, IsSameSeat};
ghost use Rattle.buffer_pool.specs.Pools.{IsSeatOf, block_of, buffer_key, new_block, new_header, new_key};
ghost use Rattle.buffer_pool.specs.Pools.{pin_block, pin_header, pin_key, sizes_of, view};

use crate::cells::fill_cells;
use crate::{Grant, Lost, NewBuffer, Pin, Pool, PoolSeat};
use buffer_word::Key;
use outside::World;
use pool_model::BufferKey;

/// The key as the words have it.
pub(crate) fn as_buffer_key(key: Key) -> BufferKey
    ensures { result ≡ buffer_key key }
{
    BufferKey {
        file: key.file,
        at: key.at,
        len: key.len,
    }
}

/// Makes a new buffer of a granted block in a released header, which the seat claims, and stores its key.
///
/// One exchange of the header's state, from that of a released header without a count, and then one store of the key word.
/// The block holds the key's bytes, and where the world tells its files the key is a range of one of them.
///
/// `Lost` comes only where the exchange found another word. It hands the grant back, and the pool is as it was.
pub fn open_header<W: World>(
    pool: &Pool<W>,
    seat: &mut PoolSeat<W>,
    header: u32,
    key: Key,
    grant: Grant,
) -> Result<NewBuffer, Lost>
    requires seat { IsSeatOf pool.now seat.old }
    requires header { header < headers_of (sizes_of pool.now) }
    requires key { IsKey key }
    requires token { IsGrantOf pool.now seat.old grant }
    requires fits { HoldsKey (sizes_of pool.now) key (block_of grant) }
    requires range { IsRange W.files (buffer_key key) }
    ensures seat { IsSameSeat pool.now seat.old seat.new }
    ensures is { IfOk result (λ n. (new_header n ≡ header) × (new_key n ≡ key) × (new_block n ≡ block_of grant)) }
    ensures token { IfOk result (λ n. IsNewOf pool.now seat.new n 0) }
    ensures ok { OnOk result ((cells : List ℕ) × (found : ℕ) × MakesAll W.files pool.now seat.old seat.new
        (Opened header (block_of grant) cells ∷ Named header (block_of grant) (buffer_key key) found ∷ [])) }
    ensures saw { IfErr result (λ e. e.saw ≢ 8) }
    ensures err { IfErr result (λ e. Makes W.files pool.now seat.old seat.new (Missed (State header) e.saw)) }
    ensures kept { IfErr result (λ e. (block_of e.grant ≡ block_of grant) × IsGrantOf pool.now seat.new e.grant) }
{
    let Grant { block } = grant;
    let saw = pool.words.open_buffer(&mut seat.seat, header, block);
    if saw != 8 {
        return Err(Lost {
            saw,
            grant: Grant { block },
        });
    }
    // the key is stored before any cell, and long before the buffer is live: whoever pins it finds its key
    pool.words
        .store_key(&mut seat.seat, header, block, as_buffer_key(key));
    Ok(NewBuffer { header, block, key })
}

/// Fills a new buffer's cells with the bytes of its key's range, eight a cell, in one store each. The last cell is filled up
/// with zeros.
///
/// The buffer wasn't filled yet, and `bytes` has the key's length. Where the world tells its files they are the file's.
pub fn fill<W: World>(pool: &Pool<W>, seat: &mut PoolSeat<W>, new: &mut NewBuffer, bytes: &[u8])
    requires seat { IsSeatOf pool.now seat.old }
    requires token { IsNewOf pool.now seat.old new.old 0 }
    requires len { length bytes.now ≡ (new_key new.old).len }
    requires content { IsContentOf W.files (buffer_key (new_key new.old)) bytes.now }
    ensures seat { IsSameSeat pool.now seat.old seat.new }
    ensures same { new.new ≡ new.old }
    ensures token { IsNewOf pool.now seat.new new.new (cells_of (buffer_key (new_key new.old))) }
    ensures made { (found : List ℕ) × (length found ≡ cells_of (buffer_key (new_key new.old)))
        × MakesAll W.files pool.now seat.old seat.new
        (fill_steps (new_header new.old) (new_block new.old) (buffer_key (new_key new.old)) (cell_in bytes.now) 0 found) }
{
    let key = as_buffer_key(new.key);
    fill_cells(
        &pool.words,
        &mut seat.seat,
        new.header,
        new.block,
        key,
        bytes,
    );
}

/// Makes a filled buffer live and pinned by the seat, in one step: a fetch_add on its header's state.
pub fn publish<W: World>(pool: &Pool<W>, seat: &mut PoolSeat<W>, new: NewBuffer) -> Pin
    requires seat { IsSeatOf pool.now seat.old }
    requires token { IsNewOf pool.now seat.old new (cells_of (buffer_key (new_key new))) }
    ensures seat { IsSameSeat pool.now seat.old seat.new }
    ensures is { (pin_header result ≡ new_header new) × (pin_key result ≡ new_key new) × (pin_block result ≡ new_block new) }
    ensures token { IsPinOf pool.now seat.new result }
    ensures made { (found : ℕ) × Makes W.files pool.now seat.old seat.new
        (Published (new_header new) (new_block new) (buffer_key (new_key new)) found) }
{
    let NewBuffer { header, block, key } = new;
    pool.words
        .publish(&mut seat.seat, header, block, as_buffer_key(key));
    Pin { header, block, key }
}
