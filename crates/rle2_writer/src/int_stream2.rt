//! Runs of integers, version 2.
ghost use Rattle.std.specs.Prelude.{◌<◌, ◌≤◌, [], length, IfOk, OnOk};
ghost use Rattle.std.specs.Int.{cast_signed, w64};
ghost use Rattle.outside.specs.Runs.{Spells};
ghost use Rattle.orc_integers.specs.Integers.{ramp};
ghost use Rattle.orc_rle2.specs.IntRun2.{IntRun2};
ghost use Rattle.rle_writer.specs.Written.{Adds, AddsRun};

use crate::choice::{MOST, starts_ramp, uneven_len};
use crate::direct::{put_direct, put_repeat};
use crate::patched::put_shorter;
use crate::sizes::are_told_by_steps;
use crate::steps::{put_ramp, put_steps};
use outside::NoMemory;
use rle_writer::{first_step, ramp_len};
use std::alloc::Global;

/// The stream of these integers, version 2, in whole runs that hold no value past them.
///
/// Values of equal steps are a run of their own where that takes fewer bytes: a short repeat, or a delta run. Other values
/// are a delta run with their steps where they go one way and that is shorter, and else a direct run, each in the least width
/// that holds them. Answers `NoMemory` where memory was refused.
///
/// Source: Apache ORC specification v1, "Integer Run Length Encoding, version 2".
pub fn write_integers2(alloc: Global, signed: bool, values: &[i64]) -> Result<Vec<u8>, NoMemory>
    ensures { IfOk result (λ stream. Spells (IntRun2 signed) stream.items values.now []) }
{
    let mut stream = Vec::new(alloc);
    let mut at = 0;
    while at < values.len() {
        at += put_run(&mut stream, signed, &values[at..])?;
    }
    Ok(stream)
}

/// Adds one run of the first values, and answers how many it has.
fn put_run(out: &mut Vec<u8>, signed: bool, values: &[i64]) -> Result<usize, NoMemory>
    requires { 0 < length values.now }
    ensures { IfOk result (λ count. AddsRun (IntRun2 signed) out.old.items out.new.items values.now count) }
{
    let step = first_step(values);
    let len = ramp_len(values, step, MOST);
    if len >= 3 && starts_ramp(signed, values, step, len) {
        put_equal_steps(out, signed, &values[0], step, len)?;
        return Ok(len);
    }
    let len = uneven_len(signed, values);
    put_uneven(out, signed, &values[..len])?;
    Ok(len)
}

/// Adds a run of any values, in the shortest of its forms.
fn put_uneven(out: &mut Vec<u8>, signed: bool, values: &[i64]) -> Result<(), NoMemory>
    requires some { 0 < length values.now }
    requires most { length values.now ≤ 512 }
    ensures { OnOk result (Adds (IntRun2 signed) out.old.items out.new.items values.now) }
{
    if values.len() > 2 && are_told_by_steps(signed, values) {
        return put_steps(out, signed, values);
    }
    if put_shorter(out, signed, values)? {
        return Ok(());
    }
    put_direct(out, signed, values)
}

/// Adds a run of equal steps, in the shorter of its two forms.
fn put_equal_steps(
    out: &mut Vec<u8>,
    signed: bool,
    first: &i64,
    step: u64,
    count: usize,
) -> Result<(), NoMemory>
    requires some { 3 ≤ count }
    requires most { count ≤ 512 }
    ensures { OnOk result (Adds (IntRun2 signed) out.old.items out.new.items (ramp first.now (cast_signed w64 step) count)) }
{
    if step == 0 && count <= 10 {
        return put_repeat(out, signed, first, count);
    }
    put_ramp(out, signed, first, step, count)
}
