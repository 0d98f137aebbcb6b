//! Columns that nobody reads.
ghost use Rattle.std.specs.Prelude.{◌≡◌, ◌+◌, ◌<◌, ◌^◌, ◌++◌, ◌∷◌, [], length, OnOk};
ghost use Rattle.table_columns.specs.Tables.{AreChildren};
ghost use Rattle.table_columns.specs.Files.{as_streams};
ghost use Rattle.table_writer.specs.Stands.{AddsOpaque, directs};

use crate::columns::push_encoding;
use orc_tail::Encoding;
use outside::{Bytes, NoMemory};
use rle_writer::put;
use std::alloc::Global;
use stripe_writer::StreamBytes;
use table_columns::OpaqueStream;

/// Adds a column with so many children: its streams, and DIRECT for it and each of them.
pub(crate) fn push_opaque(
    alloc: Global,
    parts: &mut Vec<StreamBytes>,
    encodings: &mut Vec<Encoding>,
    children: usize,
    streams: &[OpaqueStream],
) -> Result<(), NoMemory>
    ensures { OnOk result (AddsOpaque (record { parts = parts.old.items; encodings = encodings.old.items })
        (record { parts = parts.new.items; encodings = encodings.new.items }) children streams.now) }
{
    let number = encodings.len() as u64;
    push_encoding(encodings, 0, 0)?;
    push_direct(encodings, children)?;
    push_streams(alloc, parts, number, streams)
}

/// Adds DIRECT so many times.
fn push_direct(encodings: &mut Vec<Encoding>, count: usize) -> Result<(), NoMemory>
    ensures { OnOk result (encodings.new.items ≡ encodings.old.items ++ directs count) }
{
    for _done in 0..count {
        push_encoding(encodings, 0, 0)?;
    }
    Ok(())
}

/// Adds streams of the types from that number on, as they are.
fn push_streams(
    alloc: Global,
    parts: &mut Vec<StreamBytes>,
    number: u64,
    streams: &[OpaqueStream],
) -> Result<(), NoMemory>
    requires { number < 2 ^ 63 }
    ensures { OnOk result (parts.new.items ≡ parts.old.items ++ as_streams number streams.now) }
{
    for i in 0..streams.len() {
        push_copy(alloc, parts, number, &streams[i])?;
    }
    Ok(())
}

/// Adds a copy of a stream.
fn push_copy(
    alloc: Global,
    parts: &mut Vec<StreamBytes>,
    number: u64,
    stream: &OpaqueStream,
) -> Result<(), NoMemory>
    requires { number < 2 ^ 63 }
    ensures { OnOk result (parts.new.items ≡ parts.old.items
        ++ record { kind = stream.now.kind; column = number + stream.now.child; bytes = stream.now.bytes } ∷ []) }
{
    let mut bytes = Vec::new(alloc);
    put(&mut bytes, stream.bytes.as_slice())?;
    match parts.push(StreamBytes {
        kind: stream.kind,
        column: number + stream.child as u64,
        bytes: Bytes::new(bytes),
    }) {
        Ok(()) => Ok(()),
        Err(_) => Err(NoMemory),
    }
}
