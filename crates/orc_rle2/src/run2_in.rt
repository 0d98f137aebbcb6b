//! Runs of version 2 that stand in bytes, read in place.
ghost use Rattle.std.specs.Prelude.{◌≡◌, ◌≤◌, ◌<◌, [], ◌++◌, length, take, IfSome, IfNone};
ghost use Rattle.outside.specs.Lending.{ReadsIn, FillsIn};
ghost use Rattle.orc_integers.specs.Given.{GivesSome};
ghost use Rattle.orc_rle2.specs.Header.{run_body, repeat_body, count_of, IsBounded};
ghost use Rattle.orc_rle2.specs.IntRun2.{IntRun2, int_run2, delta_body};

use crate::header::{Header, header_in};
use crate::packed::{number_in, packed_in};
use orc_integers::{Held, bits_of, varint_in, write_copies, write_ramp};

/// Gives the values of runs that are the front of these bytes, until `out` is full or no whole run stands there.
///
/// Runs are decoded straight into `out`, and the last one into `held`, where `out` has no room for all of it. Answers
/// how many values were given, and the bytes behind the runs.
pub fn give_runs_in<'a>(
    bytes: &'a [u8],
    signed: bool,
    held: &mut Held,
    out: &mut [i64],
) -> (usize, &'a [u8])
    requires none { held.old ≡ [] }
    ensures fills { FillsIn (IntRun2 signed) bytes.now (take result.0 out.new) held.new result.1.now }
    ensures within { result.0 ≤ length out.old }
    ensures all { result.0 < length out.old → held.new ≡ [] }
{
    let mut given = 0;
    let mut left = bytes;
    while given < out.len() {
        let (_, open) = out.split_at_mut(given);
        match give_run_in(left, signed, held, open) {
            Some((count, behind)) => {
                given += count;
                left = behind;
            }
            None => return (given, left),
        }
    }
    (given, left)
}

/// Gives values of the run that is the front of these bytes, and holds the others; answers how many were given, and
/// the bytes behind the run. `None` where no whole run stands there, and then none is held.
#[inline(always)]
fn give_run_in<'a>(
    bytes: &'a [u8],
    signed: bool,
    held: &mut Held,
    out: &mut [i64],
) -> Option<(usize, &'a [u8])>
    requires none { held.old ≡ [] }
    requires asked { 0 < length out.old }
    ensures reads { IfSome result (λ p. ReadsIn (int_run2 signed) bytes.now (take p.0 out.new ++ held.new) p.1.now) }
    ensures gives { IfSome result (λ p. GivesSome (length out.old) p.0 held.new) }
    ensures stays { IfNone result (held.new ≡ []) }
{
    let (header, rest) = header_in(bytes)?;
    let count = header.count();
    if count > out.len() {
        return hold_run_in(rest, signed, header, held, out);
    }
    let (into, _) = out.split_at_mut(count);
    let left = body_in(rest, signed, header, into)?;
    Some((count, left))
}

/// Reads what follows the header of a run into `held`, and gives the first of its values, as many as there is room
/// for; else as `give_run_in`.
#[inline(never)]
fn hold_run_in<'a>(
    bytes: &'a [u8],
    signed: bool,
    header: Header,
    held: &mut Held,
    out: &mut [i64],
) -> Option<(usize, &'a [u8])>
    requires bounded { IsBounded header }
    requires some { 0 < count_of header }
    requires most { count_of header ≤ 512 }
    requires asked { 0 < length out.old }
    ensures reads { IfSome result (λ p. ReadsIn (run_body signed header) bytes.now (take p.0 out.new ++ held.new) p.1.now) }
    ensures gives { IfSome result (λ p. GivesSome (length out.old) p.0 held.new) }
    ensures stays { IfNone result (held.new ≡ []) }
{
    let count = header.count();
    let (into, _) = held.values.split_at_mut(count);
    match body_in(bytes, signed, header, into) {
        Some(left) => {
            held.from = 0;
            held.to = count;
            Some((held.give(out), left))
        }
        None => {
            held.clear();
            None
        }
    }
}

/// Reads what follows the header of a run into `into`, which has room for just its values; answers the bytes behind
/// the run.
///
/// `None` where it isn't there whole, or is of a form that isn't read in place: patched, or deltas with magnitudes.
/// Then what `into` holds isn't promised.
#[inline(always)]
fn body_in<'a>(bytes: &'a [u8], signed: bool, header: Header, into: &mut [i64]) -> Option<&'a [u8]>
    requires bounded { IsBounded header }
    requires room { length into.old ≡ count_of header }
    requires most { length into.old ≤ 512 }
    ensures { IfSome result (λ left. ReadsIn (run_body signed header) bytes.now into.new left.now) }
{
    match header {
        Header::Repeat { bytes: len, .. } => repeat_in(bytes, signed, len, into),
        Header::Direct { width, .. } => packed_in(bytes, width, signed, into),
        Header::Patched { .. } => None,
        Header::Delta { code, .. } => ramp_in(bytes, signed, code, into),
    }
}

#[inline(always)]
fn repeat_in<'a>(bytes: &'a [u8], signed: bool, len: u32, into: &mut [i64]) -> Option<&'a [u8]>
    requires { len ≤ 8 }
    ensures { IfSome result (λ left. ReadsIn (repeat_body signed len (length into.old)) bytes.now into.new left.now) }
{
    let len = len as usize;
    if bytes.len() < len {
        return None;
    }
    write_copies(bits_of(signed, number_in(&bytes[..len])), into);
    Some(&bytes[len..])
}

/// Reads a run of equal deltas.
#[inline(always)]
fn ramp_in<'a>(bytes: &'a [u8], signed: bool, code: u32, into: &mut [i64]) -> Option<&'a [u8]>
    ensures { IfSome result (λ left. ReadsIn (delta_body signed code (length into.old)) bytes.now into.new left.now) }
{
    if code != 0 {
        return None;
    }
    let (start, rest) = varint_in(bytes)?;
    let (step, left) = varint_in(rest)?;
    write_ramp(bits_of(signed, start), bits_of(true, step), into);
    Some(left)
}
