//! The cells of a buffer, of eight bytes each, little endian.

ghost use Rattle.std.specs.Prelude.{◌≡◌, ◌*◌, ◌^◌, ◌<◌, ◌≤◌, ℕ, List, drop, length, slice_index, Some};
ghost use Rattle.std.specs.Int.{from_le_bytes, w64};
ghost use Rattle.pool_model.specs.Block.{bytes_in};
ghost use Rattle.pool_model.specs.Content.{cells_of};
ghost use Rattle.pool_rule.specs.declared.view.Claim.TheVariants.{Fresh};
ghost use Rattle.pool_rule.specs.Layout.{IsBlockIn, headers_of};
ghost use Rattle.pool_rule.specs.Seats.{mark_at};
ghost use Rattle.pool_rule.specs.Tables.{geometry_of, table_of};
ghost use Rattle.pool_rule.specs.Words.{IsSeatAt, IsStill, view};
ghost use Rattle.buffer_pool.specs.Made.{AreMade, cell_in, fill_steps};
ghost use Rattle.buffer_pool.specs.Pools.{IsContentOf};

use outside::World;
use pool_model::{Block, BufferKey};
use pool_rule::{TableSeat, Words};

/// A byte, or 0 past the end.
fn byte_at(bytes: &[u8], at: usize) -> u8
    ensures { result ≡ slice_index bytes.now at }
{
    if at < bytes.len() { bytes[at] } else { 0 }
}

/// The first cell of fewer than eight bytes.
fn last_cell(bytes: &[u8]) -> u64
    ensures { result ≡ from_le_bytes w64 bytes.now }
{
    u64::from_le_bytes([
        byte_at(bytes, 0),
        byte_at(bytes, 1),
        byte_at(bytes, 2),
        byte_at(bytes, 3),
        byte_at(bytes, 4),
        byte_at(bytes, 5),
        byte_at(bytes, 6),
        byte_at(bytes, 7),
    ])
}

/// A cell of bytes, by its number: the whole of it in one load, or what there is.
fn cell_of_bytes(bytes: &[u8], number: u32) -> u64
    requires { 8 * number ≤ length bytes.now }
    ensures { result ≡ cell_in bytes.now number }
{
    let rest = &bytes[8 * number as usize..];
    match rest.first_chunk::<8>() {
        Some(chunk) => u64::from_le_bytes(*chunk),
        None => last_cell(rest),
    }
}

/// Fills the cells of a new buffer that the seat claims, one store each.
pub(crate) fn fill_cells<W: World>(
    words: &Words<W>,
    seat: &mut TableSeat,
    header: u32,
    block: Block,
    key: BufferKey,
    bytes: &[u8],
)
    requires seat { IsSeatAt (table_of words.now) (geometry_of words.now) seat.old }
    requires header { header < headers_of (geometry_of words.now) }
    requires block { IsBlockIn (geometry_of words.now) block }
    requires fits { key.len ≤ bytes_in (geometry_of words.now).min_block block }
    requires small { key.len ≤ 2 ^ 20 }
    requires claim { (mark_at (view seat.old) header).claim ≡ Fresh block (Some key) 0 }
    requires len { length bytes.now ≡ key.len }
    requires content { IsContentOf W.files key bytes.now }
    ensures seat { IsStill (table_of words.now) (geometry_of words.now) seat.old seat.new }
    ensures claim { (mark_at (view seat.new) header).claim ≡ Fresh block (Some key) (cells_of key) }
    ensures made { (found : List ℕ) × (length found ≡ cells_of key)
        × AreMade W.files (geometry_of words.now) seat.old.id (fill_steps header block key (cell_in bytes.now) 0 found)
        (view seat.old) (view seat.new) }
{
    let cells = (key.len + 7) / 8;
    for done in 0..cells {
        let value = cell_of_bytes(bytes, done);
        words.store_cell(seat, header, block, key, done, value);
    }
}
