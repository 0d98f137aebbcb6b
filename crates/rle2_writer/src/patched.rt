//! Runs of values above a base, of which a few are patched.
ghost use Rattle.std.specs.Prelude.{◌≡◌, ◌<◌, ◌≤◌, length, true, false, IfOk};
ghost use Rattle.orc_rle2.specs.IntRun2.{IntRun2};
ghost use Rattle.rle_writer.specs.Written.{Adds};

use crate::base::{spelled_base, write_above};
use crate::entries::{write_entries, write_low};
use crate::header::header;
use crate::numbers::numbers_fit;
use crate::packing::put_packed;
use crate::patching::{Patching, patching_for};
use crate::widths::{least_width, width_of};
use outside::NoMemory;
use rle_writer::put;

/// The form in the highest two bits.
const PATCHED: u8 = 128;

/// Adds a patched run of these values where that is shorter than a direct one. Answers whether it is; else nothing is added.
pub(crate) fn put_shorter(out: &mut Vec<u8>, signed: bool, values: &[i64]) -> Result<bool, NoMemory>
    requires some { 0 < length values.now }
    requires most { length values.now ≤ 512 }
    ensures done { IfOk result (λ done. done ≡ true → Adds (IntRun2 signed) out.old.items out.new.items values.now) }
    ensures not_done { IfOk result (λ done. done ≡ false → out.new.items ≡ out.old.items) }
{
    match patching_for(signed, values) {
        Some(patching) => put_patched(out, signed, patching, values),
        None => Ok(false),
    }
}

/// Adds a run of these values above a base: their lowest bits in a width, and patches for those that have more, where these fit.
/// Answers whether they do; else nothing is added.
///
/// Source: Apache ORC specification v1, "Integer Run Length Encoding, version 2", patched base.
fn put_patched(
    out: &mut Vec<u8>,
    signed: bool,
    patching: Patching,
    values: &[i64],
) -> Result<bool, NoMemory>
    requires code { patching.code < 31 }
    requires patch { patching.patch < 31 }
    requires some { 0 < length values.now }
    requires most { length values.now ≤ 512 }
    ensures done { IfOk result (λ done. done ≡ true → Adds (IntRun2 signed) out.old.items out.new.items values.now) }
    ensures not_done { IfOk result (λ done. done ≡ false → out.new.items ≡ out.old.items) }
{
    let Patching { base, code, patch } = patching;
    let Some((len, number)) = spelled_base(&base) else {
        return Ok(false);
    };
    let mut room = [0; 512];
    let (numbers, _) = room.split_at_mut(values.len());
    write_above(&base, values, numbers);
    numbers_fit(numbers);
    let mut list = [0; 31];
    let Some(count) = write_entries(width_of(code), width_of(patch), 0, numbers, &mut list) else {
        return Ok(false);
    };
    let mut lowest = [0; 512];
    let (low, _) = lowest.split_at_mut(values.len());
    write_low(width_of(code), numbers, low);
    put(out, &header(PATCHED, code, values.len()))?;
    put(out, &[(32 * (len - 1) + patch) as u8, (224 + count) as u8])?;
    put_packed(out, 8 * len, &[number])?;
    put_packed(out, width_of(code), low)?;
    put_packed(out, least_width(8 + width_of(patch)), &list[..count])?;
    Ok(true)
}
