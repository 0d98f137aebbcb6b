//! Runs of version 1 that stand in bytes, read in place.
ghost use Rattle.std.specs.Prelude.{◌≡◌, ◌≤◌, ◌<◌, [], ◌++◌, length, take, IfSome, IfNone};
ghost use Rattle.outside.specs.Lending.{ReadsIn, FillsIn};
ghost use Rattle.orc_integers.specs.Given.{GivesSome};
ghost use Rattle.orc_rle.specs.IntRun1.{IntRun1, int_run1, repeated_run, run_after, run_len};

use crate::run1::run_len;
use crate::signed_byte::widened;
use orc_integers::{Held, bits_of, integers_in, varint_in, write_ramp};

/// Gives the values of runs that are the front of these bytes, until `out` is full or no whole run stands there.
///
/// Runs are decoded straight into `out`, and the last one into `held`, where `out` has no room for all of it. Answers
/// how many values were given, and the bytes behind the runs.
pub fn give_runs_in<'a>(
    bytes: &'a [u8],
    signed: bool,
    held: &mut Held,
    out: &mut [i64],
) -> (usize, &'a [u8])
    requires none { held.old ≡ [] }
    ensures fills { FillsIn (IntRun1 signed) bytes.now (take result.0 out.new) held.new result.1.now }
    ensures within { result.0 ≤ length out.old }
    ensures all { result.0 < length out.old → held.new ≡ [] }
{
    let mut given = 0;
    let mut left = bytes;
    while given < out.len() {
        let (_, open) = out.split_at_mut(given);
        match give_run_in(left, signed, held, open) {
            Some((count, behind)) => {
                given += count;
                left = behind;
            }
            None => return (given, left),
        }
    }
    (given, left)
}

/// Gives values of the run that is the front of these bytes, and holds the others; answers how many were given, and
/// the bytes behind the run. `None` where no whole run stands there, and then none is held.
#[inline(always)]
fn give_run_in<'a>(
    bytes: &'a [u8],
    signed: bool,
    held: &mut Held,
    out: &mut [i64],
) -> Option<(usize, &'a [u8])>
    requires none { held.old ≡ [] }
    requires asked { 0 < length out.old }
    ensures reads { IfSome result (λ p. ReadsIn (int_run1 signed) bytes.now (take p.0 out.new ++ held.new) p.1.now) }
    ensures gives { IfSome result (λ p. GivesSome (length out.old) p.0 held.new) }
    ensures stays { IfNone result (held.new ≡ []) }
{
    if let Some((count, left)) = short_ramp_in(bytes, signed, out) {
        return Some((count, left));
    }
    let (control, rest) = bytes.split_first()?;
    let count = run_len(*control);
    if count > out.len() {
        return hold_run_in(rest, signed, *control, held, out);
    }
    let (into, _) = out.split_at_mut(count);
    let left = body_in(rest, signed, *control, into)?;
    Some((count, left))
}

/// Gives the values of the run that is the front of these bytes, where its values are a step apart, the first is one
/// byte, and there is room for all; else `None`.
#[inline(always)]
fn short_ramp_in<'a>(bytes: &'a [u8], signed: bool, out: &mut [i64]) -> Option<(usize, &'a [u8])>
    ensures reads { IfSome result (λ p. ReadsIn (int_run1 signed) bytes.now (take p.0 out.new) p.1.now) }
    ensures some { IfSome result (λ p. 0 < p.0) }
    ensures within { IfSome result (λ p. p.0 ≤ length out.old) }
{
    let (head, left) = bytes.split_first_chunk::<3>()?;
    let [control, delta, base] = *head;
    if control >= 128 {
        return None;
    }
    if base >= 128 {
        return None;
    }
    let count = usize::from(control) + 3;
    if count > out.len() {
        return None;
    }
    let (into, _) = out.split_at_mut(count);
    write_ramp(bits_of(signed, u64::from(base)), widened(delta), into);
    Some((count, left))
}

/// Reads what follows the control of a run into `held`, and gives the first of its values, as many as there is room
/// for; else as `give_run_in`.
#[inline(never)]
fn hold_run_in<'a>(
    bytes: &'a [u8],
    signed: bool,
    control: u8,
    held: &mut Held,
    out: &mut [i64],
) -> Option<(usize, &'a [u8])>
    requires asked { 0 < length out.old }
    ensures reads { IfSome result (λ p. ReadsIn (run_after signed control) bytes.now (take p.0 out.new ++ held.new) p.1.now) }
    ensures gives { IfSome result (λ p. GivesSome (length out.old) p.0 held.new) }
    ensures stays { IfNone result (held.new ≡ []) }
{
    let count = run_len(control);
    let (into, _) = held.values.split_at_mut(count);
    match body_in(bytes, signed, control, into) {
        Some(left) => {
            held.from = 0;
            held.to = count;
            Some((held.give(out), left))
        }
        None => {
            held.clear();
            None
        }
    }
}

/// Reads what follows the control of a run into `into`, which has room for just its values; answers the bytes behind
/// the run. `None` where it isn't whole, and then what `into` holds isn't promised.
#[inline(always)]
fn body_in<'a>(bytes: &'a [u8], signed: bool, control: u8, into: &mut [i64]) -> Option<&'a [u8]>
    requires { length into.old ≡ run_len control }
    ensures { IfSome result (λ left. ReadsIn (run_after signed control) bytes.now into.new left.now) }
{
    if control < 128 {
        repeated_in(bytes, signed, into)
    } else {
        integers_in(bytes, signed, into)
    }
}

#[inline(always)]
fn repeated_in<'a>(bytes: &'a [u8], signed: bool, into: &mut [i64]) -> Option<&'a [u8]>
    ensures { IfSome result (λ left. ReadsIn (repeated_run signed (length into.old)) bytes.now into.new left.now) }
{
    let (delta, rest) = bytes.split_first()?;
    let (base, left) = varint_in(rest)?;
    write_ramp(bits_of(signed, base), widened(*delta), into);
    Some(left)
}
