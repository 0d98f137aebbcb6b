//! Eight numbers at once, lane by lane, where each has one byte or each has two.
ghost use Rattle.std.specs.Prelude.{◌≡◌, ◌^◌, ◌<◌, true, map};
ghost use Rattle.std.specs.Int.{cast_signed, w64};
ghost use Rattle.std.specs.List.{AllByRecursion};
ghost use Rattle.orc_integers.specs.Eights.{ArePairs, numbers_of_pairs};
ghost use Rattle.orc_integers.specs.Integers.{integer, zigzag};

use std::simd::prelude::*;

/// Where the first bytes of eight pairs stand.
const FIRSTS: [usize; 8] = [0, 2, 4, 6, 8, 10, 12, 14];

/// Where their second bytes stand.
const SECONDS: [usize; 8] = [1, 3, 5, 7, 9, 11, 13, 15];

/// Whether each of eight bytes is a varint.
#[inline(always)]
pub fn are_short(eight: &[u8; 8]) -> bool
    ensures { result ≡ true → AllByRecursion (λ byte. byte < 128) eight.now }
{
    u8x8::from_array(*eight)
        .simd_ge(u8x8::splat(128))
        .to_bitmask()
        == 0
}

/// Whether each two of sixteen bytes are a varint.
#[inline(always)]
pub fn are_pairs(pairs: &[u8; 16]) -> bool
    ensures { result ≡ true → ArePairs pairs.now }
{
    let bytes = u8x16::from_array(*pairs);
    let firsts = bytes.swizzle(FIRSTS).simd_lt(u8x8::splat(128));
    let seconds = bytes.swizzle(SECONDS).simd_ge(u8x8::splat(128));
    (firsts | seconds).to_bitmask() == 0
}

/// The values that eight numbers of one byte stand for.
#[inline(always)]
pub fn short_values(signed: bool, eight: &[u8; 8]) -> [i64; 8]
    requires { AllByRecursion (λ byte. byte < 128) eight.now }
    ensures { result ≡ map (integer signed) eight.now }
{
    if signed {
        short_zigzags(eight)
    } else {
        plain_shorts(eight)
    }
}

#[inline(always)]
fn short_zigzags(eight: &[u8; 8]) -> [i64; 8]
    requires { AllByRecursion (λ byte. byte < 128) eight.now }
    ensures { result ≡ map zigzag eight.now }
{
    let numbers = u8x8::from_array(*eight);
    let half = (numbers >> u8x8::splat(1)).cast::<i16>();
    let odd = (numbers & u8x8::splat(1)).cast::<i16>();
    (half ^ (i16x8::splat(0) - odd)).cast::<i64>().to_array()
}

#[inline(always)]
fn plain_shorts(eight: &[u8; 8]) -> [i64; 8]
    ensures { result ≡ map (cast_signed w64) eight.now }
{
    u8x8::from_array(*eight).cast::<i64>().to_array()
}

/// The values that eight numbers of two bytes stand for.
#[inline(always)]
pub fn pair_values(signed: bool, pairs: &[u8; 16]) -> [i64; 8]
    requires { ArePairs pairs.now }
    ensures { result ≡ map (integer signed) (numbers_of_pairs pairs.now) }
{
    let numbers = pair_numbers(pairs);
    if signed {
        zigzags(&numbers)
    } else {
        plain(&numbers)
    }
}

#[inline(always)]
fn pair_numbers(pairs: &[u8; 16]) -> [u16; 8]
    requires { ArePairs pairs.now }
    ensures value { result ≡ numbers_of_pairs pairs.now }
    ensures below { AllByRecursion (λ number. number < 2 ^ 14) result }
{
    let bytes = u8x16::from_array(*pairs);
    let low = (bytes.swizzle(FIRSTS) & u8x8::splat(127)).cast::<u16>();
    let high = bytes.swizzle(SECONDS).cast::<u16>();
    (low + (high << u16x8::splat(7))).to_array()
}

#[inline(always)]
fn zigzags(numbers: &[u16; 8]) -> [i64; 8]
    requires { AllByRecursion (λ number. number < 2 ^ 14) numbers.now }
    ensures { result ≡ map zigzag numbers.now }
{
    let lanes = u16x8::from_array(*numbers);
    let half = (lanes >> u16x8::splat(1)).cast::<i32>();
    let odd = (lanes & u16x8::splat(1)).cast::<i32>();
    (half ^ (i32x8::splat(0) - odd)).cast::<i64>().to_array()
}

#[inline(always)]
fn plain(numbers: &[u16; 8]) -> [i64; 8]
    ensures { result ≡ map (cast_signed w64) numbers.now }
{
    u16x8::from_array(*numbers).cast::<i64>().to_array()
}
