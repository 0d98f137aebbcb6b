//! Values that go one way, and where the run of their steps is cut.
ghost use Rattle.std.specs.Prelude.{◌≤◌, ◌<◌, length};

use crate::distances::distance;
use crate::sizes::{is_worth, ramp_bytes};
use crate::steps::steps_code;
use crate::widths::width_of;
use rle_writer::{first_step, ramp_len};

/// About how many bytes stand in front of steps.
const FRONT: usize = 10;

/// The fewest values whose steps are looked at.
const FEW: usize = 8;

/// How many of the first values go one way, the way of the first step, and so many at most.
pub(crate) fn stretch_len(values: &[i64], most: usize) -> usize
    requires some { 0 < length values.now }
    requires most { 0 < most }
    ensures some { 0 < result }
    ensures within { result ≤ length values.now }
    ensures most { result ≤ most }
{
    let step = first_step(values);
    let mut len = 1;
    while len < values.len() && len < most && goes_on(step, &values[len - 1], &values[len]) {
        len += 1;
    }
    len
}

/// Whether a value isn't against the direction of a step.
fn goes_on(step: u64, before: &i64, value: &i64) -> bool {
    distance(step, before, value) < 1 << 63
}

/// How many of the first values stand in one run of steps: all of a stretch, or up to a step that would make all others
/// wide, or up to where a run of equal steps is worth more.
pub(crate) fn cut(signed: bool, stretch: &[i64]) -> usize
    requires some { 0 < length stretch.now }
    requires most { length stretch.now ≤ 512 }
    ensures some { 0 < result }
    ensures within { result ≤ length stretch.now }
{
    let step = first_step(stretch);
    let len = cut_at_gap(step, stretch);
    cut_at_ramp(signed, step, &stretch[..len])
}

/// Up to the widest step, as long as the others take fewer bytes without it.
fn cut_at_gap(step: u64, stretch: &[i64]) -> usize
    requires some { 0 < length stretch.now }
    requires most { length stretch.now ≤ 512 }
    ensures some { 0 < result }
    ensures within { result ≤ length stretch.now }
{
    let mut len = stretch.len();
    while len >= FEW {
        let gap = gap_in(step, &stretch[..len]);
        if gap == 0 {
            return len;
        }
        len = gap;
    }
    len
}

/// The place of the value behind the widest step, where a run that begins there is worth its front; else 0.
fn gap_in(step: u64, values: &[i64]) -> usize
    requires some { 0 < length values.now }
    requires most { length values.now ≤ 512 }
    ensures { result < length values.now }
{
    let (gap, _) = widest(step, values);
    let wide = steps_width(step, values);
    let before = wide.saturating_sub(steps_width(step, &values[..gap]));
    let behind = wide.saturating_sub(steps_width(step, &values[gap..]));
    if before * gap + behind * (values.len() - gap) > 8 * FRONT {
        gap
    } else {
        0
    }
}

/// Up to the first values of equal steps that take fewer bytes in a run of their own.
fn cut_at_ramp(signed: bool, step: u64, stretch: &[i64]) -> usize
    requires some { 0 < length stretch.now }
    requires most { length stretch.now ≤ 512 }
    ensures some { 0 < result }
    ensures within { result ≤ length stretch.now }
{
    let width = steps_width(step, stretch);
    let mut at = 1;
    while at < stretch.len() {
        let len = ramp_worth(signed, width, &stretch[at..]);
        if len == 0 {
            return at;
        }
        at += len;
    }
    stretch.len()
}

/// How many of the first values may be passed over: 0 where they are of equal steps, so many that they are worth a run of their
/// own among steps of this width.
fn ramp_worth(signed: bool, width: usize, values: &[i64]) -> usize
    requires some { 0 < length values.now }
    requires most { length values.now ≤ 512 }
    requires width { width ≤ 64 }
    ensures { result ≤ length values.now }
{
    let step = first_step(values);
    let len = ramp_len(values, step, 512);
    let bytes = ramp_bytes(signed, &values[0], step, len);
    let more = if len < values.len() { FRONT } else { 0 };
    if is_worth(bytes + more, 0, width, len) {
        return 0;
    }
    if len > 2 { len - 1 } else { 1 }
}

/// The place of the value that is furthest from the one before, and how far: the first such place, or 0 where there is none.
fn widest(step: u64, values: &[i64]) -> (usize, u64)
    ensures { 0 < length values.now → result.0 < length values.now }
{
    let mut place = 0;
    let mut most = 0;
    for i in 1..values.len() {
        let far = distance(step, &values[i - 1], &values[i]);
        if far > most {
            place = i;
            most = far;
        }
    }
    (place, most)
}

/// The width of how far each value but the first is from the one before.
pub(crate) fn steps_width(step: u64, values: &[i64]) -> usize
    ensures { result ≤ 64 }
{
    let (_, most) = widest(step, values);
    width_of(steps_code(most)) as usize
}
