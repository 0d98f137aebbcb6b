//! The streams of a stripe, in the order in which they are written.
ghost use Rattle.std.specs.Prelude.{◌≡◌, ◌≤◌, ◌^◌, ◌++◌, length, OnOk, IfOk};
ghost use Rattle.stripe_writer.specs.Parts.{body_of, and_stream, and_column, AddsBuffer};

use crate::stream_bytes::StreamBytes;
use column_writer::{ColumnBuffer, Encoded};
use outside::{Bytes, NoMemory};
use rle_writer::put;
use std::alloc::Global;

/// Adds a stream behind the others, unless it is empty: an absent stream means the same.
///
/// Answers `NoMemory` where memory was refused, and the list is then given up.
pub fn push_stream(
    parts: &mut Vec<StreamBytes>,
    kind: u64,
    column: u64,
    bytes: Bytes,
) -> Result<(), NoMemory>
    ensures { OnOk result (parts.new.items ≡ and_stream parts.old.items kind column bytes) }
{
    if bytes.is_empty() {
        return Ok(());
    }
    match parts.push(StreamBytes {
        kind,
        column,
        bytes,
    }) {
        Ok(()) => Ok(()),
        Err(_) => Err(NoMemory),
    }
}

/// Adds the streams of a column, whose type has that number: PRESENT, DATA, LENGTH and DICTIONARY_DATA, without those that
/// are empty.
///
/// Answers `NoMemory` where memory was refused, and the list is then given up.
///
/// Source: Apache ORC specification v1, "Column Encodings".
pub fn push_column(
    parts: &mut Vec<StreamBytes>,
    column: u64,
    encoded: Encoded,
) -> Result<(), NoMemory>
    ensures { OnOk result (parts.new.items ≡ and_column parts.old.items column encoded) }
{
    let Encoded {
        present,
        body,
        lengths,
        dictionary,
        dictionary_size: _,
    } = encoded;
    push_stream(parts, 0, column, present)?;
    push_stream(parts, 1, column, body)?;
    push_stream(parts, 2, column, lengths)?;
    push_stream(parts, 3, column, dictionary)
}

/// Encodes the rows of a column, and adds its streams. Answers how many entries its dictionary has.
///
/// Answers `NoMemory` where memory was refused, and the list is then given up.
pub fn push_buffer(
    alloc: Global,
    parts: &mut Vec<StreamBytes>,
    column: u64,
    buffer: &ColumnBuffer,
) -> Result<u64, NoMemory>
    requires { length buffer.now.rows ≤ 2 ^ 32 }
    ensures { IfOk result (λ size. AddsBuffer parts.old.items parts.new.items column buffer.now size) }
{
    let encoded = buffer.encode(alloc)?;
    let size = encoded.dictionary_size;
    push_column(parts, column, encoded)?;
    Ok(size)
}

/// The data of a stripe: the bytes of its streams, joined in order.
///
/// Answers `NoMemory` where memory was refused.
pub fn join_streams(alloc: Global, parts: &[StreamBytes]) -> Result<Vec<u8>, NoMemory>
    ensures { IfOk result (λ body. body.items ≡ body_of parts.now) }
{
    let mut body = Vec::new(alloc);
    for i in 0..parts.len() {
        put_part(&mut body, &parts[i])?;
    }
    Ok(body)
}

/// Adds the bytes of a stream.
fn put_part(body: &mut Vec<u8>, part: &StreamBytes) -> Result<(), NoMemory>
    ensures { OnOk result (body.new.items ≡ body.old.items ++ part.now.bytes) }
{
    put(body, part.bytes.as_slice())
}
