//! The data of a stripe.

use crate::columns::buffered;
use orc_columns::{Spelling, Version};
use outside::Bytes;
use std::alloc::Global;
use stripe_writer::{StreamBytes, join_streams, push_buffer, push_stream};

/// A column of numbers, one that isn't read, and texts by a dictionary: DATA; DATA; PRESENT, DATA, LENGTH, DICTIONARY_DATA.
const BODY: &[u8] = b"\x01\x08xyz\xFF\xE0\x40\x02\x40\x42\x01\x90bca";

/// Adds the streams of a column of these rows, and answers how many entries its dictionary has.
fn push_rows(
    alloc: Global,
    parts: &mut Vec<StreamBytes>,
    column: u64,
    spelling: Spelling,
    rows: &[i64; 4],
) -> Option<u64> {
    let buffer = buffered(alloc, spelling, rows)?;
    push_buffer(alloc, parts, column, &buffer).ok()
}

/// Adds the stream of the column that isn't read.
fn push_other(alloc: Global, parts: &mut Vec<StreamBytes>) -> Option<()> {
    let other = Bytes::new(Vec::from_slice(alloc, b"xyz".as_slice()).ok()?);
    push_stream(parts, 1, 2, other).ok()
}

/// Whether these streams are the body.
fn is_body(alloc: Global, parts: &[StreamBytes]) -> Option<bool> {
    let body = join_streams(alloc, parts).ok()?;
    Some(parts.len() == 6 && body.as_slice() == BODY)
}

/// Whether the streams of the three columns are joined in their order, and the dictionary has two entries.
fn is_joined(alloc: Global) -> Option<bool> {
    let mut parts = Vec::new(alloc);
    let numbers = Spelling::Integers(Version::Two);
    let none = push_rows(alloc, &mut parts, 1, numbers, &[4, 4, 4, 4])?;
    push_other(alloc, &mut parts)?;
    let texts = Spelling::Dictionary(Version::Two);
    let entries = push_rows(alloc, &mut parts, 3, texts, &[2, 1, 2, 9])?;
    Some(none == 0 && entries == 2 && is_body(alloc, &parts)?)
}

#[test]
fn streams_are_joined(rt: HostRuntime) {
    assert!(rt; is_joined(rt.alloc()) == Some(true));
}
