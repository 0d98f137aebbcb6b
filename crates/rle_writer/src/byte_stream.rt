//! Runs of bytes.
ghost use Rattle.std.specs.Prelude.{◌≡◌, ◌≤◌, ◌<◌, [], length, take, replicate, slice_index_or, IfOk, OnOk};
ghost use Rattle.outside.specs.Runs.{Spells};
ghost use Rattle.orc_rle.specs.ByteRun.{ByteRun};
ghost use Rattle.rle_writer.specs.Written.{Adds, AddsRun};

use crate::adding::put;
use outside::NoMemory;
use std::alloc::Global;

/// The most equal bytes of a run, and the most literals.
const MOST_EQUAL: usize = 130;

const MOST_LITERALS: usize = 128;

/// The stream of these bytes, in whole runs that hold no byte past them.
///
/// Three or more equal bytes are a run of their own. Answers `NoMemory` where memory was refused.
///
/// Source: Apache ORC specification v1, "Byte Run Length Encoding".
pub fn write_bytes(alloc: Global, bytes: &[u8]) -> Result<Vec<u8>, NoMemory>
    ensures { IfOk result (λ stream. Spells ByteRun stream.items bytes.now []) }
{
    let mut stream = Vec::new(alloc);
    let mut at = 0;
    while at < bytes.len() {
        at += put_run(&mut stream, &bytes[at..])?;
    }
    Ok(stream)
}

/// Adds one run of the first bytes, and answers how many it has.
fn put_run(out: &mut Vec<u8>, bytes: &[u8]) -> Result<usize, NoMemory>
    requires { 0 < length bytes.now }
    ensures { IfOk result (λ count. AddsRun ByteRun out.old.items out.new.items bytes.now count) }
{
    let equal = equal_len(bytes);
    if equal >= 3 {
        put_repeated(out, bytes[0], equal)?;
        return Ok(equal);
    }
    let len = literal_len(bytes);
    put_literals(out, &bytes[..len])?;
    Ok(len)
}

/// Adds a run of equal bytes.
fn put_repeated(out: &mut Vec<u8>, value: u8, count: usize) -> Result<(), NoMemory>
    requires some { 3 ≤ count }
    requires most { count ≤ 130 }
    ensures { OnOk result (Adds ByteRun out.old.items out.new.items (replicate count value)) }
{
    let control = (count - 3) as u8;
    put(out, &[control, value])
}

/// Adds a run of bytes as they are.
fn put_literals(out: &mut Vec<u8>, values: &[u8]) -> Result<(), NoMemory>
    requires some { 0 < length values.now }
    requires most { length values.now ≤ 128 }
    ensures { OnOk result (Adds ByteRun out.old.items out.new.items values.now) }
{
    let control = (256 - values.len()) as u8;
    put(out, &[control])?;
    put(out, values)
}

/// How many of the first bytes are equal, and as many as a run may have at most.
fn equal_len(bytes: &[u8]) -> usize
    requires { 0 < length bytes.now }
    ensures within { result ≤ length bytes.now }
    ensures most { result ≤ 130 }
    ensures equal { take result bytes.now ≡ replicate result (slice_index_or bytes.now 0 0) }
{
    let first = bytes[0];
    let mut len = 0;
    while len < bytes.len() && len < MOST_EQUAL && bytes[len] == first {
        len += 1;
    }
    len
}

/// How many of the first bytes are written as they are: up to where three equal ones begin.
fn literal_len(bytes: &[u8]) -> usize
    requires { 0 < length bytes.now }
    ensures some { 0 < result }
    ensures within { result ≤ length bytes.now }
    ensures most { result ≤ 128 }
{
    let mut len = 1;
    while len < bytes.len() && len < MOST_LITERALS && !begins_equal(&bytes[len..]) {
        len += 1;
    }
    len
}

/// Whether the first three bytes are equal.
fn begins_equal(bytes: &[u8]) -> bool {
    bytes.len() >= 3 && bytes[0] == bytes[1] && bytes[1] == bytes[2]
}
