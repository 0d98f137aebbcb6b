//! Runs of values that are told by their steps.
ghost use Rattle.std.specs.Prelude.{◌<◌, ◌≤◌, ◌^◌, ℕ, length, slice_index, OnOk};
ghost use Rattle.std.specs.Int.{cast_signed, w64};
ghost use Rattle.orc_integers.specs.Integers.{ramp};
ghost use Rattle.orc_rle2.specs.IntRun2.{IntRun2};
ghost use Rattle.orc_rle2.specs.Widths.{width_of};
ghost use Rattle.rle_writer.specs.Written.{Adds};

use crate::distances::write_distances;
use crate::header::header;
use crate::numbers::greatest;
use crate::packing::put_packed;
use crate::widths::{code_for, width_of};
use outside::NoMemory;
use rle_writer::{first_step, number_of, number_of_bits, put, put_varint};

/// The form in the highest two bits.
const DELTA: u8 = 192;

/// Adds a delta run of equal steps: its first value, and the step, as 64 bits.
pub(crate) fn put_ramp(
    out: &mut Vec<u8>,
    signed: bool,
    first: &i64,
    step: u64,
    count: usize,
) -> Result<(), NoMemory>
    requires some { 0 < count }
    requires most { count ≤ 512 }
    ensures { OnOk result (Adds (IntRun2 signed) out.old.items out.new.items (ramp first.now (cast_signed w64 step) count)) }
{
    let base = number_of(signed, first);
    let delta = number_of_bits(true, step);
    put(out, &header(DELTA, 0, count))?;
    put_varint(out, base)?;
    put_varint(out, delta)
}

/// Adds a delta run of these values: the first of them, the step to the second, and how far each other is from the one before
/// in the direction of that step, in the least width that a run of steps can have for them.
pub(crate) fn put_steps(out: &mut Vec<u8>, signed: bool, values: &[i64]) -> Result<(), NoMemory>
    requires some { 2 ≤ length values.now }
    requires most { length values.now ≤ 512 }
    ensures { OnOk result (Adds (IntRun2 signed) out.old.items out.new.items values.now) }
{
    let step = first_step(values);
    let mut room = [0; 512];
    let (distances, _) = room.split_at_mut(values.len() - 2);
    write_distances(step, &values[1..], distances);
    let code = steps_code(greatest(distances));
    put(out, &header(DELTA, code, values.len()))?;
    put_varint(out, number_of(signed, &values[0]))?;
    put_varint(out, number_of_bits(true, step))?;
    put_packed(out, width_of(code), distances)
}

/// The least code of a run of steps whose width holds a number: code 0 would say that its steps are equal.
pub(crate) fn steps_code(number: u64) -> u32
    ensures some { 0 < result }
    ensures code { result < 32 }
    ensures holds { number < 2 ^ width_of result }
{
    let code = code_for(number);
    if code == 0 { 1 } else { code }
}
