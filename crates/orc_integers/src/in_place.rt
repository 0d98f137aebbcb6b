//! Varints that stand in bytes, read in place.
ghost use Rattle.std.specs.Prelude.{◌≡◌, ◌<◌, length, map, IfSome};
ghost use Rattle.outside.specs.Lending.{ReadsIn};
ghost use Rattle.outside.specs.Varint.{open_varint};
ghost use Rattle.orc_integers.specs.InPlace.{NumberIn, IntegersIn};
ghost use Rattle.orc_integers.specs.Integers.{integer};

use crate::eights::{are_pairs, are_short, pair_values, short_values};
use crate::integers::bits_of;
use outside::Begun;

/// The number of the varint that is the front of these bytes, and the bytes behind it; `None` where no whole
/// varint is.
#[inline(always)]
pub fn varint_in<'a>(bytes: &'a [u8]) -> Option<(u64, &'a [u8])>
    ensures { IfSome result (λ p. NumberIn bytes.now p.0 p.1.now) }
{
    let (first, rest) = bytes.split_first()?;
    if *first < 128 {
        return Some((u64::from(*first), rest));
    }
    let (second, left) = rest.split_first()?;
    if *second < 128 {
        let number = u64::from(*first % 128) + 128 * u64::from(*second);
        return Some((number, left));
    }
    long_varint_in(bytes)
}

/// Does what `varint_in` does, for numbers of any length.
fn long_varint_in<'a>(bytes: &'a [u8]) -> Option<(u64, &'a [u8])>
    ensures { IfSome result (λ p. NumberIn bytes.now p.0 p.1.now) }
{
    let mut begun = Begun::new();
    for (i, byte) in bytes.iter().enumerate() {
        match begun.push(*byte) {
            Ok(Some(number)) => return Some((number, &bytes[i + 1..])),
            Ok(None) => {}
            Err(_) => return None,
        }
    }
    None
}

/// Reads the varints that are the front of these bytes into `into`, as many as it has room for, as the values that
/// they stand for; it answers the bytes behind them. `None` where so many whole varints aren't there, and then what
/// `into` holds isn't promised.
pub fn integers_in<'a>(bytes: &'a [u8], signed: bool, into: &mut [i64]) -> Option<&'a [u8]>
    ensures { IfSome result (λ left. IntegersIn signed bytes.now into.new left.now) }
{
    if signed {
        integers_of(bytes, true, into)
    } else {
        integers_of(bytes, false, into)
    }
}

/// Does what `integers_in` does, with code of its own for each sign.
#[inline(always)]
fn integers_of<'a>(bytes: &'a [u8], signed: bool, into: &mut [i64]) -> Option<&'a [u8]>
    ensures { IfSome result (λ left. IntegersIn signed bytes.now into.new left.now) }
{
    let mut left = bytes;
    let mut done = 0;
    while done + 8 <= into.len() {
        let (_, open) = into.split_at_mut(done);
        let (group, _) = open.split_at_mut(8);
        left = eight_in(left, signed, group)?;
        done += 8;
    }
    let (_, open) = into.split_at_mut(done);
    few_in(left, signed, open)
}

/// Does what `integers_in` does, one number at a time.
#[inline(always)]
fn few_in<'a>(bytes: &'a [u8], signed: bool, into: &mut [i64]) -> Option<&'a [u8]>
    ensures { IfSome result (λ left. IntegersIn signed bytes.now into.new left.now) }
{
    let mut left = bytes;
    for value in into.iter_mut() {
        let (number, behind) = varint_in(left)?;
        *value = bits_of(signed, number).cast_signed();
        left = behind;
    }
    Some(left)
}

/// Does what `integers_in` does for eight numbers, at once where each is one byte, or each is two.
#[inline(always)]
fn eight_in<'a>(bytes: &'a [u8], signed: bool, into: &mut [i64]) -> Option<&'a [u8]>
    requires { length into.old ≡ 8 }
    ensures { IfSome result (λ left. IntegersIn signed bytes.now into.new left.now) }
{
    match bytes.split_first_chunk::<8>() {
        Some((eight, left)) if are_short(eight) => {
            into.copy_from_slice(&short_values(signed, eight));
            Some(left)
        }
        _ => eight_pairs_in(bytes, signed, into),
    }
}

/// Does what `eight_in` does, where the numbers aren't each one byte.
#[inline(always)]
fn eight_pairs_in<'a>(bytes: &'a [u8], signed: bool, into: &mut [i64]) -> Option<&'a [u8]>
    requires { length into.old ≡ 8 }
    ensures { IfSome result (λ left. IntegersIn signed bytes.now into.new left.now) }
{
    match bytes.split_first_chunk::<16>() {
        Some((pairs, left)) if are_pairs(pairs) => {
            into.copy_from_slice(&pair_values(signed, pairs));
            Some(left)
        }
        _ => few_in(bytes, signed, into),
    }
}
