//! The cells of a key's range of a file's bytes.

ghost use Rattle.std.specs.Prelude.{◌≡◌, ◌+◌, slice_index, slice_range};
ghost use Rattle.pool_model.specs.Content.{content_cell};

use crate::BufferKey;

/// The bytes from a place on, `len` of them or as many as there are.
fn range_at(bytes: &[u8], at: u64, len: u32) -> &[u8]
    ensures { result.now ≡ slice_range bytes.now at (at + len) }
{
    if at >= bytes.len() as u64 {
        return &[];
    }
    let rest = &bytes[at as usize..];
    let len = len as usize;
    if len < rest.len() { &rest[..len] } else { rest }
}

/// A byte, or 0 past the end.
fn byte_at(bytes: &[u8], at: u64) -> u8
    ensures { result ≡ slice_index bytes.now at }
{
    if at < bytes.len() as u64 {
        bytes[at as usize]
    } else {
        0
    }
}

/// A cell of a key's content: eight bytes of the range, little endian, and zero past its end.
pub fn content_cell(bytes: &[u8], key: BufferKey, number: u32) -> u64
    ensures { result ≡ content_cell bytes.now key number }
{
    let range = range_at(bytes, key.at, key.len);
    let first = 8 * u64::from(number);
    u64::from_le_bytes([
        byte_at(range, first),
        byte_at(range, first + 1),
        byte_at(range, first + 2),
        byte_at(range, first + 3),
        byte_at(range, first + 4),
        byte_at(range, first + 5),
        byte_at(range, first + 6),
        byte_at(range, first + 7),
    ])
}
