//! Which values stand in one run.
ghost use Rattle.std.specs.Prelude.{◌<◌, ◌≤◌, length};

use crate::sizes::{are_told_by_steps, direct_width, is_worth, ramp_bytes};
use crate::stretches::{cut, steps_width, stretch_len};
use rle_writer::{first_step, ramp_len};

/// The most values of a run.
pub(crate) const MOST: usize = 512;

/// So many values that go one way end a run that was begun otherwise.
const LONG: usize = 32;

/// Whether the first values, which are of equal steps, are a run of their own: where that takes no more bytes than to leave them
/// among others, packed or in one run with the steps behind them.
pub(crate) fn starts_ramp(signed: bool, values: &[i64], step: u64, len: usize) -> bool
    requires some { 0 < len }
    requires within { len ≤ length values.now }
    requires most { len ≤ 512 }
{
    if len < 3 {
        return false;
    }
    let bytes = ramp_bytes(signed, &values[0], step, len);
    let width = direct_width(signed, &values[..len]);
    let behind = stretch_len(&values[len - 1..], LONG);
    if behind < LONG {
        return is_worth(bytes + front_of(&values[len..]), 2, width, len);
    }
    let steps = steps_width(step, &values[len - 1..len + LONG - 1]);
    is_worth(bytes, 0, if steps < width { steps } else { width }, len)
}

/// How many values stand in a run that isn't of equal steps: those that go one way, where they are told by their steps, and else
/// up to where another run is worth more.
pub(crate) fn uneven_len(signed: bool, values: &[i64]) -> usize
    requires { 0 < length values.now }
    ensures some { 0 < result }
    ensures within { result ≤ length values.now }
    ensures most { result ≤ 512 }
{
    let mut len = cut(signed, &values[..stretch_len(values, MOST)]);
    if are_told_by_steps(signed, &values[..len]) {
        return len;
    }
    while len < values.len() && len < MOST && !begins_run(signed, &values[len..]) {
        len += 1;
    }
    len
}

/// Whether the first values are a run of their own behind a direct one.
fn begins_run(signed: bool, values: &[i64]) -> bool {
    if values.is_empty() {
        return false;
    }
    let step = first_step(values);
    let len = ramp_len(values, step, MOST);
    if len >= 3 {
        let bytes = ramp_bytes(signed, &values[0], step, len) + front_of(&values[len..]);
        if is_worth(bytes, 0, direct_width(signed, &values[..len]), len) {
            return true;
        }
    }
    begins_stretch(signed, values)
}

/// Whether the first values go one way, so many that they are worth a run of their own.
fn begins_stretch(signed: bool, values: &[i64]) -> bool
    requires { 0 < length values.now }
{
    let len = stretch_len(values, LONG);
    len == LONG && are_told_by_steps(signed, &values[..len])
}

/// How many bytes stand in front of the run behind, where there is one.
fn front_of(behind: &[i64]) -> usize
    ensures { result ≤ 2 }
{
    if behind.is_empty() { 0 } else { 2 }
}
