//! Lengths of texts: how many bytes they are together, and where each text ends.
ghost use Rattle.std.specs.Prelude.{◌≡◌, ◌+◌, ◌<◌, ◌^◌, ℤ, true, length, map, sum, unsigned_abs, All, Contains, MatchOption};
ghost use Rattle.std.specs.Prelude.{◌≤◌, FitsSigned, IfOk, IsTrue, IsFalse};
ghost use Rattle.std.specs.Int.{w64, cast_unsigned, IsNonNegative};
ghost use Rattle.orc_values.specs.Texts.{running_ends, slices};
ghost use Rattle.row_texts.specs.Lookup.{IsNegative};

use orc_values::{Texts, lay_ends};
use outside::NoMemory;
use std::alloc::Global;

/// Whether a length is negative.
pub fn has_negative(lengths: &[i64]) -> bool
    ensures some { IsTrue result → (number : ℤ) × Contains lengths.now number × IsNegative number }
    ensures none { IsFalse result → All IsNonNegative lengths.now }
{
    if are_positive(lengths) {
        return false;
    }
    lengths.iter().any(|length| *length < 0)
}

/// Whether no length is negative: then none has the highest bit, which is looked at once.
fn are_positive(lengths: &[i64]) -> bool
    ensures { result ≡ true → All IsNonNegative lengths.now }
{
    bits_of(lengths) < 1 << 63
}

/// The bits that are set in any of the lengths, so that a test of all of them is one test.
fn bits_of(lengths: &[i64]) -> u64
    ensures within { All (λ number. cast_unsigned w64 number ≤ result) lengths.now }
    ensures fit { All (FitsSigned w64) lengths.now }
{
    let mut seen = 0u64;
    for length in lengths {
        seen |= length.cast_unsigned();
    }
    seen
}

/// How much room is left behind texts of these lengths, or None where there is too little.
pub fn room_after(lengths: &[i64], room: u64) -> Option<u64>
    requires { All IsNonNegative lengths.now }
    ensures { MatchOption result (room < sum (map unsigned_abs lengths.now)) (λ left. left + sum (map unsigned_abs lengths.now) ≡ room) }
{
    if !are_small(lengths) {
        return room_after_each(lengths, room);
    }
    let total = total_of(lengths);
    if total > room {
        return None;
    }
    Some(room - total)
}

/// Whether it is seen at once that the lengths are less than 2^64 together: there are at most 2^32, and each is below 2^32.
fn are_small(lengths: &[i64]) -> bool
    requires { All IsNonNegative lengths.now }
    ensures { IsTrue result → sum (map unsigned_abs lengths.now) < 2 ^ 64 }
{
    if lengths.len() > 1 << 32 {
        return false;
    }
    bits_of(lengths) < 1 << 32
}

/// How many bytes texts of these lengths are together.
fn total_of(lengths: &[i64]) -> u64
    requires positive { All IsNonNegative lengths.now }
    requires fits { sum (map unsigned_abs lengths.now) < 2 ^ 64 }
    ensures { result ≡ sum (map unsigned_abs lengths.now) }
{
    let mut total = 0;
    for length in lengths {
        total += *length as u64;
    }
    total
}

/// Does what `room_after` does, length by length.
fn room_after_each(lengths: &[i64], room: u64) -> Option<u64>
    requires { All IsNonNegative lengths.now }
    ensures { MatchOption result (room < sum (map unsigned_abs lengths.now)) (λ left. left + sum (map unsigned_abs lengths.now) ≡ room) }
{
    let mut left = room;
    for length in lengths {
        left = left.checked_sub(*length as u64)?;
    }
    Some(left)
}

/// The ends of texts by their lengths, in memory of their own.
///
/// Answers `NoMemory` only where memory for them was refused.
pub fn ends_of(alloc: Global, lengths: &[i64]) -> Result<Vec<usize>, NoMemory>
    requires positive { All IsNonNegative lengths.now }
    requires fits { sum (map unsigned_abs lengths.now) < 2 ^ 64 }
    ensures ends { IfOk result (λ ends. ends.items ≡ running_ends 0 (map unsigned_abs lengths.now)) }
{
    let mut ends = Vec::new(alloc);
    let mut end = 0;
    for length in lengths {
        end += *length as usize;
        if ends.push(end).is_err() {
            return Err(NoMemory);
        }
    }
    Ok(ends)
}

/// Texts by their lengths and by their bytes. It keeps both lists: no memory is taken.
///
/// `ends` has an entry for each text, which is overwritten.
pub fn laid_texts(lengths: &[i64], bytes: Vec<u8>, ends: Vec<usize>) -> Texts
    requires each { length lengths.now ≡ length ends.items }
    requires positive { All IsNonNegative lengths.now }
    requires all { sum (map unsigned_abs lengths.now) ≡ length bytes.items }
    ensures { result ≡ slices 0 (map unsigned_abs lengths.now) bytes.items }
{
    let mut ends = ends;
    lay_ends(lengths, &mut ends);
    Texts::new(bytes, ends)
}
