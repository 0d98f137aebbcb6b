//! The widths of packed numbers, in bits.
ghost use Rattle.std.specs.Prelude.{◌≡◌, ◌*◌, ◌^◌, ◌<◌, ◌≤◌};
ghost use Rattle.orc_rle2.specs.Widths.{width_of, least_width};

/// The width that a code means.
///
/// Source: Apache ORC specification v1, "Integer Run Length Encoding, version 2", its table of widths.
pub(crate) fn width_of(code: u32) -> u32
    requires { code < 32 }
    ensures value { result ≡ width_of code }
    ensures most { result ≤ 64 }
    ensures narrow { code < 31 → result ≤ 56 }
{
    match code {
        0..=23 => code + 1,
        24 => 26,
        25 => 28,
        26 => 30,
        27 => 32,
        28 => 40,
        29 => 48,
        30 => 56,
        _ => 64,
    }
}

/// The least width that is at least so many bits.
pub(crate) fn least_width(bits: u32) -> u32
    requires some { 0 < bits }
    requires most { bits ≤ 64 }
    ensures value { result ≡ least_width bits }
    ensures holds { bits ≤ result }
    ensures most { result ≤ 64 }
{
    match bits {
        0..=24 => bits,
        25..=26 => 26,
        27..=28 => 28,
        29..=30 => 30,
        31..=32 => 32,
        33..=40 => 40,
        41..=48 => 48,
        49..=56 => 56,
        _ => 64,
    }
}

/// The least code whose width holds a number.
pub(crate) fn code_for(number: u64) -> u32
    ensures code { result < 32 }
    ensures holds { number < 2 ^ width_of result }
{
    for code in 0..31 {
        if number >> width_of(code) == 0 {
            return code;
        }
    }
    31
}

/// The least number of bytes that hold a number: 1 to 8.
pub(crate) fn byte_len(number: u64) -> u32
    ensures some { 0 < result }
    ensures most { result ≤ 8 }
    ensures holds { number < 2 ^ (8 * result) }
{
    for len in 1..8 {
        if number >> (8 * len) == 0 {
            return len;
        }
    }
    8
}
