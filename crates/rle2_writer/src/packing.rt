//! Packing numbers: big endian bits, one number after the other.
ghost use Rattle.std.specs.Prelude.{◌≡◌, ◌+◌, ◌-◌, ◌*◌, ◌/◌, ◌%◌, ◌^◌, ◌<◌, ◌≤◌, ℕ, slice_index, OnOk, IfOk};
ghost use Rattle.rle_writer.specs.Written.{Adds};
ghost use Rattle.rle2_writer.specs.Packs.{Packs, AddsBits};

use outside::NoMemory;
use rle_writer::put;

/// Adds numbers that are packed in this width, which holds each of them; the last byte is padded with zeros.
///
/// Source: Apache ORC specification v1, "Integer Run Length Encoding, version 2".
pub(crate) fn put_packed(out: &mut Vec<u8>, width: u32, numbers: &[u64]) -> Result<(), NoMemory>
    requires most { width ≤ 64 }
    requires fits { (k : ℕ) → slice_index numbers.now k < 2 ^ width }
    ensures { OnOk result (Adds (Packs width) out.old.items out.new.items numbers.now) }
{
    let mut held = 0;
    let mut bits = 0;
    for number in numbers {
        let more = join(held, width, *number);
        let left = put_whole(out, more, bits + width)?;
        held = left.0;
        bits = left.1;
    }
    if bits == 0 {
        return Ok(());
    }
    put(out, &[pad(held as u8, bits)])
}

/// A few bits, and then a number of this width.
fn join(held: u128, width: u32, number: u64) -> u128
    requires held { held < 128 }
    requires most { width ≤ 64 }
    ensures { result ≡ held * 2 ^ width + number }
{
    (held << width) + u128::from(number)
}

/// The bits of a last byte, with zeros behind them.
fn pad(held: u8, bits: u32) -> u8
    requires some { 0 < bits }
    requires most { bits < 8 }
    requires below { held < 2 ^ bits }
    ensures { result ≡ held * 2 ^ (8 - bits) }
{
    held << (8 - bits)
}

/// Adds the whole bytes of a number of so many bits, and answers the bits that are left, and how many they are.
fn put_whole(out: &mut Vec<u8>, number: u128, total: u32) -> Result<(u128, u32), NoMemory>
    requires most { total ≤ 71 }
    requires below { number < 2 ^ total }
    ensures { IfOk result (λ left. AddsBits out.old.items out.new.items number total left.0 left.1) }
{
    let mut held = number;
    let mut bits = total;
    while bits >= 8 {
        bits -= 8;
        let (top, rest) = split(held, bits);
        put(out, &[top])?;
        held = rest;
    }
    Ok((held, bits))
}

/// The byte above so many bits, and the bits.
fn split(held: u128, bits: u32) -> (u8, u128)
    requires most { bits ≤ 64 }
    requires below { held < 2 ^ (bits + 8) }
    ensures top { result.0 ≡ held / 2 ^ bits }
    ensures rest { result.1 ≡ held % 2 ^ bits }
{
    let top = held >> bits;
    (top as u8, held - (top << bits))
}
