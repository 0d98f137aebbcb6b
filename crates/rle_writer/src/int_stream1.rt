//! Runs of integers, version 1.
ghost use Rattle.std.specs.Prelude.{◌≡◌, ◌≤◌, ◌<◌, ℕ, [], length, IfOk, OnOk, IfSome};
ghost use Rattle.std.specs.Int.{cast_signed, w8, w64};
ghost use Rattle.outside.specs.Runs.{Spells};
ghost use Rattle.orc_integers.specs.Integers.{ramp};
ghost use Rattle.orc_rle.specs.IntRun1.{IntRun1};
ghost use Rattle.rle_writer.specs.Written.{Adds, AddsRun, AreIntegers};

use crate::adding::{put, put_varint};
use crate::number::number_of;
use crate::ramp::{first_step, ramp_len};
use outside::NoMemory;
use std::alloc::Global;

/// The most values of equal steps in a run, and the most literals.
const MOST_EQUAL: usize = 130;

const MOST_LITERALS: usize = 128;

/// The stream of these integers, version 1, in whole runs that hold no value past them.
///
/// Three or more values of equal steps, each from -128 to 127, are a run of their own. Answers `NoMemory` where memory was
/// refused.
///
/// Source: Apache ORC specification v1, "Integer Run Length Encoding, version 1".
pub fn write_integers1(alloc: Global, signed: bool, values: &[i64]) -> Result<Vec<u8>, NoMemory>
    ensures { IfOk result (λ stream. Spells (IntRun1 signed) stream.items values.now []) }
{
    let mut stream = Vec::new(alloc);
    let mut at = 0;
    while at < values.len() {
        at += put_run(&mut stream, signed, &values[at..])?;
    }
    Ok(stream)
}

/// Adds one run of the first values, and answers how many it has.
fn put_run(out: &mut Vec<u8>, signed: bool, values: &[i64]) -> Result<usize, NoMemory>
    requires { 0 < length values.now }
    ensures { IfOk result (λ count. AddsRun (IntRun1 signed) out.old.items out.new.items values.now count) }
{
    let step = first_step(values);
    let len = ramp_len(values, step, MOST_EQUAL);
    if len >= 3 {
        if let Some(delta) = signed_byte(step) {
            put_repeated(out, signed, &values[0], delta, len)?;
            return Ok(len);
        }
    }
    let len = literal_len(values);
    put_literals(out, signed, &values[..len])?;
    Ok(len)
}

/// Adds a run of values of equal steps.
fn put_repeated(
    out: &mut Vec<u8>,
    signed: bool,
    first: &i64,
    delta: u8,
    count: usize,
) -> Result<(), NoMemory>
    requires some { 3 ≤ count }
    requires most { count ≤ 130 }
    ensures { OnOk result (Adds (IntRun1 signed) out.old.items out.new.items (ramp first.now (cast_signed w8 delta) count)) }
{
    let control = (count - 3) as u8;
    let base = number_of(signed, first);
    put(out, &[control, delta])?;
    put_varint(out, base)
}

/// Adds a run of values, each as a varint.
fn put_literals(out: &mut Vec<u8>, signed: bool, values: &[i64]) -> Result<(), NoMemory>
    requires some { 0 < length values.now }
    requires most { length values.now ≤ 128 }
    ensures { OnOk result (Adds (IntRun1 signed) out.old.items out.new.items values.now) }
{
    let control = (256 - values.len()) as u8;
    put(out, &[control])?;
    put_integers(out, signed, values)
}

/// Adds the varints of the numbers that stand for these values.
fn put_integers(out: &mut Vec<u8>, signed: bool, values: &[i64]) -> Result<(), NoMemory>
    ensures { OnOk result (Adds (AreIntegers signed) out.old.items out.new.items values.now) }
{
    for value in values {
        put_varint(out, number_of(signed, value))?;
    }
    Ok(())
}

/// A step as a signed byte, where it is one.
fn signed_byte(step: u64) -> Option<u8>
    ensures { IfSome result (λ delta. cast_signed w8 delta ≡ cast_signed w64 step) }
{
    if step < 128 {
        return Some(step as u8);
    }
    if step >= u64::MAX - 127 {
        return Some((step - (u64::MAX - 255)) as u8);
    }
    None
}

/// How many of the first values are written as they are: up to where three of equal steps begin.
fn literal_len(values: &[i64]) -> usize
    requires { 0 < length values.now }
    ensures some { 0 < result }
    ensures within { result ≤ length values.now }
    ensures most { result ≤ 128 }
{
    let mut len = 1;
    while len < values.len() && len < MOST_LITERALS && !begins_ramp(&values[len..]) {
        len += 1;
    }
    len
}

/// Whether the first three values are of equal steps that a byte holds.
fn begins_ramp(values: &[i64]) -> bool {
    let step = first_step(values);
    !values.is_empty() && ramp_len(values, step, 3) == 3 && signed_byte(step).is_some()
}
