//! Packed values: big endian bits, one value after the other.
ghost use Rattle.std.specs.Prelude.{◌≡◌, ◌+◌, ◌*◌, ◌^◌, ◌-◌, ◌/◌, ◌<◌, ◌≤◌, false, length, take, drop, map, IfSome};
ghost use Rattle.outside.specs.Lending.{ReadsIn};
ghost use Rattle.outside.specs.Reading.{Reads, placed};
ghost use Rattle.orc_integers.specs.Integers.{integer};
ghost use Rattle.orc_rle2.specs.Integers.{bits_in};
ghost use Rattle.orc_rle2.specs.IntRun2.{direct_body, packed};
ghost use Rattle.orc_rle2.specs.Packed.{number_of, bits_to, packed_len, unpacked};
ghost use Rattle.orc_rle2.specs.Widths.{IsWidth};

use orc_integers::bits_of;
use outside::{Feed, RunFault, take_exactly};

/// So many values or fewer are unpacked one by one, and taken with a small buffer, which has room for them at any width.
const FEW: usize = 32;

/// Up to this width a buffer of medium size has room for the values of any run.
const MEDIUM: u32 = 24;

/// The number in at most eight bytes, big endian.
pub fn number_in(bytes: &[u8]) -> u64
    requires { length bytes.now ≤ 8 }
    ensures value { result ≡ number_of bytes.now }
    ensures below { result < 2 ^ (8 * length bytes.now) }
{
    let mut number = 0;
    for byte in bytes {
        number = 256 * number + u64::from(*byte);
    }
    number
}

/// The number in the eight bytes from a place on, big endian.
fn word_at(bytes: &[u8], at: usize) -> u64
    requires { at + 8 ≤ length bytes.now }
    ensures { result ≡ number_of (take 8 (drop at bytes.now)) }
{
    match bytes[at..].split_first_chunk::<8>() {
        Some((word, _)) => u64::from_be_bytes(*word),
        None => unreachable!(),
    }
}

/// The number at an index, of numbers of this width. The mask has as many low bits.
#[inline(always)]
fn value_at(bytes: &[u8], width: u32, mask: u64, index: usize) -> u64
    requires width { IsWidth width }
    requires mask { mask ≡ 2 ^ width - 1 }
    requires few { index < 512 }
    requires room { width * index / 8 + 8 ≤ length bytes.now }
    ensures { result ≡ bits_to bytes.now width (width * (index + 1)) }
{
    let place = width * index as u32;
    let behind = 64 - (place % 8 + width);
    (word_at(bytes, place as usize / 8) >> behind) & mask
}

/// The number at a place in a group of eight. It is read from the group's own bytes and eight behind them, whose length is known once
/// the width is, so that there is one test for the group and none for its numbers.
#[inline(always)]
fn value_in(bytes: &[u8], width: u32, mask: u64, group: usize, place: usize) -> u64
    requires width { IsWidth width }
    requires mask { mask ≡ 2 ^ width - 1 }
    requires few { group < 64 }
    requires within { place < 8 }
    requires room { width * group + (width + 8) ≤ length bytes.now }
    ensures { result ≡ bits_to bytes.now width (width * (8 * group + place + 1)) }
{
    let (_, rest) = bytes.split_at(width as usize * group);
    let (part, _) = rest.split_at(width as usize + 8);
    value_at(part, width, mask, place)
}

/// Unpacks numbers of this width, and writes the values that they stand for to `into`, which says how many.
///
/// Eight bytes stand behind those that are read, so that each number is read as a part of eight bytes.
#[inline(always)]
fn unpack(bytes: &[u8], width: u32, signed: bool, into: &mut [i64])
    requires width { IsWidth width }
    requires few { length into.old ≤ 512 }
    requires room { packed_len width (length into.old) + 8 ≤ length bytes.now }
    ensures { into.new ≡ map (integer signed) (unpacked width (length into.old) bytes.now) }
{
    let mask = low_bits(width);
    let groups = into.len() / 8;
    for group in 0..groups {
        for place in 0..8 {
            into[8 * group + place] = bits_of(
                signed,
                value_in(bytes, width, mask, group, place),
            ).cast_signed();
        }
    }
    for i in 8 * groups..into.len() {
        into[i] = bits_of(signed, value_at(bytes, width, mask, i)).cast_signed();
    }
}

/// Unpacks as `unpack` does, number by number: what that prepares for groups doesn't pay where there are few.
fn unpack_few(bytes: &[u8], width: u32, signed: bool, into: &mut [i64])
    requires width { IsWidth width }
    requires few { length into.old ≤ 512 }
    requires room { packed_len width (length into.old) + 8 ≤ length bytes.now }
    ensures { into.new ≡ map (integer signed) (unpacked width (length into.old) bytes.now) }
{
    let mask = low_bits(width);
    for i in 0..into.len() {
        into[i] = bits_of(signed, value_at(bytes, width, mask, i)).cast_signed();
    }
}

/// Unpacks as `unpack` does, by code of its own for each width where there are many numbers.
fn unpack_by_width(bytes: &[u8], width: u32, signed: bool, into: &mut [i64])
    requires width { IsWidth width }
    requires few { length into.old ≤ 512 }
    requires room { packed_len width (length into.old) + 8 ≤ length bytes.now }
    ensures { into.new ≡ map (integer signed) (unpacked width (length into.old) bytes.now) }
{
    if into.len() <= FEW {
        return unpack_few(bytes, width, signed, into);
    }
    match width {
        1 => unpack(bytes, 1, signed, into),
        2 => unpack(bytes, 2, signed, into),
        3 => unpack(bytes, 3, signed, into),
        4 => unpack(bytes, 4, signed, into),
        5 => unpack(bytes, 5, signed, into),
        6 => unpack(bytes, 6, signed, into),
        7 => unpack(bytes, 7, signed, into),
        8 => unpack(bytes, 8, signed, into),
        9 => unpack(bytes, 9, signed, into),
        10 => unpack(bytes, 10, signed, into),
        11 => unpack(bytes, 11, signed, into),
        12 => unpack(bytes, 12, signed, into),
        13 => unpack(bytes, 13, signed, into),
        14 => unpack(bytes, 14, signed, into),
        15 => unpack(bytes, 15, signed, into),
        16 => unpack(bytes, 16, signed, into),
        17 => unpack(bytes, 17, signed, into),
        18 => unpack(bytes, 18, signed, into),
        19 => unpack(bytes, 19, signed, into),
        20 => unpack(bytes, 20, signed, into),
        21 => unpack(bytes, 21, signed, into),
        22 => unpack(bytes, 22, signed, into),
        23 => unpack(bytes, 23, signed, into),
        24 => unpack(bytes, 24, signed, into),
        26 => unpack(bytes, 26, signed, into),
        28 => unpack(bytes, 28, signed, into),
        30 => unpack(bytes, 30, signed, into),
        32 => unpack(bytes, 32, signed, into),
        40 => unpack(bytes, 40, signed, into),
        48 => unpack(bytes, 48, signed, into),
        56 => unpack(bytes, 56, signed, into),
        64 => unpack(bytes, 64, signed, into),
        _ => unpack(bytes, width, signed, into),
    }
}

/// A number of so many bits, all set.
fn low_bits(width: u32) -> u64
    requires { width ≤ 64 }
    ensures { result ≡ 2 ^ width - 1 }
{
    ((1u128 << width) - 1) as u64
}

/// Takes as many packed numbers of this width as `into` has room for, in one take where the feed gives them at
/// once, and writes the values that they stand for.
///
/// Answers `StreamEnds` where the stream has fewer bytes, and `Read` only where the feed failed in this call.
pub fn take_packed<F: Feed>(
    feed: &mut F,
    stream: u32,
    width: u32,
    signed: bool,
    into: &mut [i64],
) -> Result<(), RunFault>
    requires width { IsWidth width }
    requires few { length into.old ≤ 512 }
    ensures values { Reads F.rest F.fed F.fault_count stream (direct_body signed width (length into.old)) feed.old feed.new
        (placed into.new result) }

    // Of an unsigned stream the values have the bits of the numbers.
    ensures bits { signed ≡ false → Reads F.rest F.fed F.fault_count stream (packed width (length into.old)) feed.old feed.new
        (placed (bits_in into.new) result) }
{
    if into.len() <= FEW {
        take_within::<F, 264>(feed, stream, width, signed, into)
    } else if width <= MEDIUM {
        take_within::<F, 1544>(feed, stream, width, signed, into)
    } else {
        take_within::<F, 4104>(feed, stream, width, signed, into)
    }
}

/// Does what `take_packed` does, with a buffer of so many bytes, since a large one takes long to clear.
fn take_within<F: Feed, const ROOM: usize>(
    feed: &mut F,
    stream: u32,
    width: u32,
    signed: bool,
    into: &mut [i64],
) -> Result<(), RunFault>
    requires width { IsWidth width }
    requires few { length into.old ≤ 512 }
    requires room { packed_len width (length into.old) + 8 ≤ ROOM }
    requires small { ROOM ≤ 4104 }
    ensures values { Reads F.rest F.fed F.fault_count stream (direct_body signed width (length into.old)) feed.old feed.new
        (placed into.new result) }
    ensures bits { signed ≡ false → Reads F.rest F.fed F.fault_count stream (packed width (length into.old)) feed.old feed.new
        (placed (bits_in into.new) result) }
{
    let mut buffer = [0; ROOM];
    let len = (width as usize * into.len()).div_ceil(8);
    let (bytes, _) = buffer.split_at_mut(len);
    take_exactly(feed, stream, bytes)?;
    unpack_by_width(&buffer, width, signed, into);
    Ok(())
}

/// Unpacks the numbers that are the front of these bytes, as many as `into` has room for, and writes the values that
/// they stand for; it answers the bytes behind them.
///
/// `None` where there aren't so many bytes and eight more, since each number is read as a part of eight bytes.
pub fn packed_in<'a>(
    bytes: &'a [u8],
    width: u32,
    signed: bool,
    into: &mut [i64],
) -> Option<&'a [u8]>
    requires width { IsWidth width }
    requires few { length into.old ≤ 512 }
    ensures { IfSome result (λ left. ReadsIn (direct_body signed width (length into.old)) bytes.now into.new left.now) }
{
    let len = (width as usize * into.len()).div_ceil(8);
    if bytes.len() < len + 8 {
        return None;
    }
    unpack_by_width(bytes, width, signed, into);
    Some(&bytes[len..])
}
