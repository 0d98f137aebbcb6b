//! One seat brings a range of a file into the pool, and another reads it there.

ghost use Rattle.std.specs.Prelude.{◌≡◌, ◌+◌, ◌%◌, ◌<◌, ◌≤◌, ℕ, List, length, IfSome, IsTrue, OnSome};
ghost use Rattle.buddy_arena.specs.Block.{IsClear};
ghost use Rattle.buffer_word.specs.KeyWord.{IsKey};
ghost use Rattle.pool_model.specs.Content.{IsRange};
ghost use Rattle.pool_rule.specs.declared.view.Hold.TheVariants.{Free};
ghost use Rattle.pool_rule.specs.Layout.{headers_of};
ghost use Rattle.pool_rule.specs.Seats.{mark_at};
ghost use Rattle.buffer_pool.specs.Pools.{AreBytesOf, HoldsKey, IsBlockOf, IsContentOf, IsPinOf, IsSameSeat, IsSeatOf};
ghost use Rattle.buffer_pool.specs.Pools.{block_at, buffer_key, pin_header, pin_key, seat_id, sizes_of, view};
ghost use Rattle.pool_uses.specs.Sharing.{Publishes, Reads, Shares};

use buffer_pool::{
    Key, Lost, Pin, Pool, PoolSeat, fill, grant, open_header, pin, publish, read, ungrant, unpin,
};
use outside::World;

/// Brings a range of a file into a header: grants a block, opens the header, fills its cells and publishes it.
///
/// `None` comes where the block or the header was lost; then the seat has neither.
pub fn publish_range<W: World>(
    pool: &Pool<W>,
    seat: &mut PoolSeat<W>,
    header: u32,
    key: Key,
    place: u32,
    order: u32,
    seen: u64,
    bytes: &[u8],
) -> Option<Pin>
    requires seat { IsSeatOf pool.now seat.old }
    requires header { header < headers_of (sizes_of pool.now) }
    requires key { IsKey key }
    requires block { IsBlockOf pool.now (block_at place order) }
    requires clear { IsClear seen (place % 64) order }
    requires fits { HoldsKey (sizes_of pool.now) key (block_at place order) }
    requires range { IsRange W.files (buffer_key key) }
    requires len { length bytes.now ≡ key.len }
    requires content { IsContentOf W.files (buffer_key key) bytes.now }
    ensures seat { IsSameSeat pool.now seat.old seat.new }
    ensures is { IfSome result (λ p. (pin_header p ≡ header) × (pin_key p ≡ key)) }
    ensures token { IfSome result (λ p. IsPinOf pool.now seat.new p) }
    ensures made { OnSome result (Publishes W.files (sizes_of pool.now) (seat_id seat.old) header key
        (block_at place order) seen bytes.now (view seat.old) (view seat.new)) }
{
    match grant(pool, seat, place, order, seen) {
        Ok(granted) => match open_header(pool, seat, header, key, granted) {
            Ok(mut new) => {
                fill(pool, seat, &mut new, bytes);
                Some(publish(pool, seat, new))
            }
            Err(Lost { saw: _, grant }) => {
                ungrant(pool, seat, grant);
                None
            }
        },
        Err(_) => None,
    }
}

/// Reads a part of a range out of a header that has it: pins it, reads and lets it go. Answers whether it could be pinned.
pub fn read_range<W: World>(
    pool: &Pool<W>,
    seat: &mut PoolSeat<W>,
    header: u32,
    key: Key,
    at: u32,
    into: &mut [u8],
) -> bool
    requires seat { IsSeatOf pool.now seat.old }
    requires header { header < headers_of (sizes_of pool.now) }
    requires key { IsKey key }
    requires free { (mark_at (view seat.old) header).hold ≡ Free }
    requires range { at + length into.old ≤ key.len }
    ensures seat { IsSameSeat pool.now seat.old seat.new }
    ensures len { length into.new ≡ length into.old }
    ensures content { IsTrue result → AreBytesOf W.files key at (length into.old) into.new }
    ensures made { IsTrue result →
        Reads W.files (sizes_of pool.now) (seat_id seat.old) header key at into.new (view seat.old) (view seat.new) }
{
    match pin(pool, seat, header, key) {
        Ok(pin) => {
            read(pool, seat, &pin, at, into);
            unpin(pool, seat, pin);
            true
        }
        Err(_) => false,
    }
}

/// Brings a range in by one seat and reads a part of it by another. Answers whether both could be done.
pub fn share<W: World>(
    pool: &Pool<W>,
    first: &mut PoolSeat<W>,
    second: &mut PoolSeat<W>,
    header: u32,
    key: Key,
    place: u32,
    order: u32,
    seen: u64,
    bytes: &[u8],
    at: u32,
    into: &mut [u8],
) -> bool
    requires first { IsSeatOf pool.now first.old }
    requires second { IsSeatOf pool.now second.old }
    requires header { header < headers_of (sizes_of pool.now) }
    requires key { IsKey key }
    requires block { IsBlockOf pool.now (block_at place order) }
    requires clear { IsClear seen (place % 64) order }
    requires fits { HoldsKey (sizes_of pool.now) key (block_at place order) }
    requires range { IsRange W.files (buffer_key key) }
    requires len { length bytes.now ≡ key.len }
    requires content { IsContentOf W.files (buffer_key key) bytes.now }
    requires free { (mark_at (view second.old) header).hold ≡ Free }
    requires part { at + length into.old ≤ key.len }
    ensures first { IsSameSeat pool.now first.old first.new }
    ensures second { IsSameSeat pool.now second.old second.new }
    ensures content { IsTrue result → AreBytesOf W.files key at (length into.old) into.new }
    ensures shares { IsTrue result →
        Shares W.files (sizes_of pool.now) (seat_id first.old) header key (block_at place order) seen bytes.now
        (view first.old) (view first.new) }
    ensures reads { IsTrue result →
        Reads W.files (sizes_of pool.now) (seat_id second.old) header key at into.new (view second.old) (view second.new) }
{
    match publish_range(pool, first, header, key, place, order, seen, bytes) {
        Some(pin) => {
            let whole = read_range(pool, second, header, key, at, into);
            unpin(pool, first, pin);
            whole
        }
        None => false,
    }
}
