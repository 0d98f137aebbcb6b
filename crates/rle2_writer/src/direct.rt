//! Runs of values that are packed as they are.
ghost use Rattle.std.specs.Prelude.{◌≡◌, ◌<◌, ◌≤◌, length, pos, OnOk};
ghost use Rattle.orc_integers.specs.Integers.{ramp};
ghost use Rattle.orc_rle2.specs.IntRun2.{IntRun2};
ghost use Rattle.rle_writer.specs.Written.{Adds};

use crate::header::header;
use crate::numbers::{greatest, write_numbers};
use crate::packing::put_packed;
use crate::widths::{byte_len, code_for, width_of};
use outside::NoMemory;
use rle_writer::{number_of, put};

/// The form in the highest two bits.
const DIRECT: u8 = 64;

/// Adds a direct run of these values, in the least width that holds their numbers.
pub(crate) fn put_direct(out: &mut Vec<u8>, signed: bool, values: &[i64]) -> Result<(), NoMemory>
    requires some { 0 < length values.now }
    requires most { length values.now ≤ 512 }
    ensures { OnOk result (Adds (IntRun2 signed) out.old.items out.new.items values.now) }
{
    let mut room = [0; 512];
    let (numbers, _) = room.split_at_mut(values.len());
    write_numbers(signed, values, numbers);
    let code = code_for(greatest(numbers));
    put(out, &header(DIRECT, code, values.len()))?;
    put_packed(out, width_of(code), numbers)
}

/// Adds a short repeat: one value, three to ten times, which are values of no step.
pub(crate) fn put_repeat(
    out: &mut Vec<u8>,
    signed: bool,
    value: &i64,
    count: usize,
) -> Result<(), NoMemory>
    requires some { 3 ≤ count }
    requires most { count ≤ 10 }
    ensures { OnOk result (Adds (IntRun2 signed) out.old.items out.new.items (ramp value.now (pos 0) count)) }
{
    let number = number_of(signed, value);
    let len = byte_len(number);
    let first = (8 * (len - 1)) as usize + (count - 3);
    put(out, &[first as u8])?;
    put_packed(out, 8 * len, &[number])
}
