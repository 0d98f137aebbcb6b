//! The bytes of a pinned buffer.

ghost use Rattle.std.specs.Prelude.{◌≡◌, ◌+◌, ◌-◌, ◌*◌, ◌/◌, ◌%◌, ◌^◌, ◌<◌, ◌≤◌, ℕ, List, length, slice_index, Some};
ghost use Rattle.std.specs.Int.{to_le_bytes, w64};
ghost use Rattle.pool_model.specs.Block.{bytes_in};
ghost use Rattle.pool_model.specs.Content.{IsCell, IsRange, cells_of};
ghost use Rattle.pool_rule.specs.declared.view.Hold.TheVariants.{Pinned};
ghost use Rattle.pool_rule.specs.Layout.{IsBlockIn, block_cells, headers_of};
ghost use Rattle.pool_rule.specs.Seats.{mark_at};
ghost use Rattle.pool_rule.specs.Tables.{geometry_of, table_of};
ghost use Rattle.pool_rule.specs.Words.{IsSeatAt, IsStill};
ghost use Rattle.pool_rule.specs.Words as table;
ghost use Rattle.buffer_pool.specs.Made.{AreMade, byte_of, cells_touched, load_steps};
ghost use Rattle.buffer_pool.specs.Pools.{AreBytesOf, IsPinOf, IsSameSeat, IsSeatOf, pin_key, seat_id, view};
ghost use Rattle.buffer_pool.specs.Read.{AreRead};

use crate::buffers::as_buffer_key;
use crate::{Pin, Pool, PoolSeat};
use outside::World;
use pool_model::{Block, BufferKey};
use pool_rule::{TableSeat, Words};

/// Puts those of a cell's bytes that lie in the range: it begins `skip` bytes into cell 0.
fn put_part(into: &mut [u8], skip: usize, number: usize, value: u64)
    requires { (skip < 8) × (number < 2 ^ 32) }
    ensures len { length into.new ≡ length into.old }
    ensures put { (i : ℕ) → i < length into.old → 8 * number ≤ skip + i → skip + i < 8 * number + 8 →
        slice_index into.new i ≡ slice_index (to_le_bytes w64 value) (skip + i - 8 * number) }
    ensures left { (i : ℕ) → i < length into.old → skip + i < 8 * number → slice_index into.new i ≡ slice_index into.old i }
{
    let bytes = value.to_le_bytes();
    for k in 0..8 {
        let at = 8 * number + k;
        if skip <= at && at - skip < into.len() {
            into[at - skip] = bytes[k];
        }
    }
}

/// Puts a whole cell's bytes.
fn put_whole(into: &mut [u8], at: usize, value: u64)
    requires { at + 8 ≤ length into.old }
    ensures len { length into.new ≡ length into.old }
    ensures put { (k : ℕ) → k < 8 → slice_index into.new (at + k) ≡ slice_index (to_le_bytes w64 value) k }
    ensures left { (i : ℕ) → i < at → slice_index into.new i ≡ slice_index into.old i }
{
    into[at..at + 8].copy_from_slice(&value.to_le_bytes());
}

/// Puts the bytes of a cell, in one piece where the range has all eight.
fn put_cell(into: &mut [u8], skip: usize, number: usize, value: u64)
    requires { (skip < 8) × (number < 2 ^ 32) }
    ensures len { length into.new ≡ length into.old }
    ensures put { (i : ℕ) → i < length into.old → 8 * number ≤ skip + i → skip + i < 8 * number + 8 →
        slice_index into.new i ≡ slice_index (to_le_bytes w64 value) (skip + i - 8 * number) }
    ensures left { (i : ℕ) → i < length into.old → skip + i < 8 * number → slice_index into.new i ≡ slice_index into.old i }
{
    let first = 8 * number;
    if skip <= first && first - skip + 8 <= into.len() {
        put_whole(into, first - skip, value);
    } else {
        put_part(into, skip, number, value);
    }
}

/// How many cells hold a byte of a range that begins so many bytes into the first of them.
fn touched(skip: usize, len: usize) -> u32
    requires { (skip < 8) × (len ≤ 2 ^ 20) }
    ensures { result ≡ cells_touched skip len }
{
    if len == 0 {
        0
    } else {
        ((skip + len + 7) / 8) as u32
    }
}

/// Loads each cell that holds a byte of the range once, and puts its bytes.
fn read_cells<W: World>(
    words: &Words<W>,
    seat: &mut TableSeat,
    header: u32,
    block: Block,
    key: BufferKey,
    at: u32,
    into: &mut [u8],
)
    requires seat { IsSeatAt (table_of words.now) (geometry_of words.now) seat.old }
    requires header { header < headers_of (geometry_of words.now) }
    requires block { IsBlockIn (geometry_of words.now) block }
    requires fits { key.len ≤ bytes_in (geometry_of words.now).min_block block }
    requires small { key.len ≤ 2 ^ 20 }
    requires pinned { (mark_at (table.view seat.old) header).hold ≡ Pinned block (Some key) }
    requires range { at + length into.old ≤ key.len }
    ensures seat { IsStill (table_of words.now) (geometry_of words.now) seat.old seat.new }
    ensures len { length into.new ≡ length into.old }
    ensures made { (found : List ℕ) × (length found ≡ cells_touched (at % 8) (length into.old))
        × AreMade W.files (geometry_of words.now) seat.old.id
        (load_steps (block.place * block_cells (geometry_of words.now) + at / 8) found)
        (table.view seat.old) (table.view seat.new)
        × ((i : ℕ) → i < length into.old → slice_index into.new i ≡ byte_of found (at % 8 + i))
        × ((j : ℕ) → j < length found → IsCell W.files key (at / 8 + j) (slice_index found j) × IsRange W.files key) }
    ensures pinned { (mark_at (table.view seat.new) header).hold ≡ Pinned block (Some key) }
{
    let _pin = (header, key);
    let skip = (at % 8) as usize;
    let first = at / 8;
    for number in 0..touched(skip, into.len()) {
        let cell = words.cell_of(block, first + number);
        let value = words.look_at_cell(seat, cell);
        put_cell(into, skip, number as usize, value);
    }
}

/// Reads a part of a pinned buffer's bytes, those from byte `at` of its key's range on.
///
/// The range lies in the key's. Each cell that holds a byte of it is loaded once; none is where the range is empty. Where
/// the world tells its files the bytes are the file's.
pub fn read<W: World>(pool: &Pool<W>, seat: &mut PoolSeat<W>, pin: &Pin, at: u32, into: &mut [u8])
    requires seat { IsSeatOf pool.now seat.old }
    requires token { IsPinOf pool.now seat.old pin.now }
    requires range { at + length into.old ≤ (pin_key pin.now).len }
    ensures seat { IsSameSeat pool.now seat.old seat.new }
    ensures token { IsPinOf pool.now seat.new pin.now }
    ensures len { length into.new ≡ length into.old }
    ensures made { (found : List ℕ) × AreRead W.files pool.now (seat_id seat.old) pin.now at into.new found
        (view seat.old) (view seat.new) }
    ensures content { AreBytesOf W.files (pin_key pin.now) at (length into.old) into.new }
{
    let key = as_buffer_key(pin.key);
    read_cells(
        &pool.words,
        &mut seat.seat,
        pin.header,
        pin.block,
        key,
        at,
        into,
    );
}
