//! How many bytes runs take, for the choice between them.
ghost use Rattle.std.specs.Prelude.{◌≤◌, ◌<◌, length};

use crate::numbers::greatest_of;
use crate::stretches::steps_width;
use crate::widths::{byte_len, code_for, width_of};
use orc_proto::varint_len;
use rle_writer::{first_step, number_of, number_of_bits};

/// The bytes of a run of equal steps.
pub(crate) fn ramp_bytes(signed: bool, first: &i64, step: u64, len: usize) -> usize
    ensures { result ≤ 22 }
{
    let number = number_of(signed, first);
    if step == 0 && len <= 10 {
        return 1 + byte_len(number) as usize;
    }
    2 + varint_len(number) + varint_len(number_of_bits(true, step))
}

/// Whether a run takes no more bytes than its values among others of a width, which save so many bytes.
pub(crate) fn is_worth(bytes: usize, less: usize, width: usize, len: usize) -> bool
    requires bytes { bytes ≤ 100 }
    requires less { less ≤ 2 }
    requires width { width ≤ 64 }
    requires len { len ≤ 512 }
{
    8 * bytes <= width * len + 8 * less
}

/// Whether these values are told by their steps: whether that takes fewer bytes than a direct run.
pub(crate) fn are_told_by_steps(signed: bool, values: &[i64]) -> bool
    requires { length values.now ≤ 512 }
{
    values.len() > 2 && steps_bytes(signed, values) < direct_bytes(signed, values)
}

/// The bytes of a direct run.
pub(crate) fn direct_bytes(signed: bool, values: &[i64]) -> usize
    requires { length values.now ≤ 512 }
    ensures { result ≤ 5000 }
{
    2 + packed_bytes(direct_width(signed, values), values.len())
}

/// The width of these values in a direct run.
pub(crate) fn direct_width(signed: bool, values: &[i64]) -> usize
    ensures { result ≤ 64 }
{
    width_of(code_for(greatest_of(signed, values))) as usize
}

/// The bytes of a run of steps.
fn steps_bytes(signed: bool, values: &[i64]) -> usize
    requires some { 2 ≤ length values.now }
    requires most { length values.now ≤ 512 }
    ensures { result ≤ 5000 }
{
    let step = first_step(values);
    let front = ramp_bytes(signed, &values[0], step, 512);
    front + packed_bytes(steps_width(step, &values[1..]), values.len() - 2)
}

/// The bytes of so many numbers of a width.
pub(crate) fn packed_bytes(width: usize, len: usize) -> usize
    requires width { width ≤ 64 }
    requires len { len ≤ 512 }
    ensures { result ≤ 4200 }
{
    (width * len + 7) / 8
}
