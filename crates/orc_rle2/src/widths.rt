//! The widths of packed values, in bits.
ghost use Rattle.std.specs.Prelude.{◌≡◌, ◌<◌, ◌≤◌};
ghost use Rattle.orc_rle2.specs.Widths.{width_of, least_width, IsWidth};

/// The width that a code means.
pub fn width_of(code: u32) -> u32
    requires { code < 32 }
    ensures value { result ≡ width_of code }
    ensures width { IsWidth result }
{
    match code {
        0..=23 => code + 1,
        24 => 26,
        25 => 28,
        26 => 30,
        27 => 32,
        28 => 40,
        29 => 48,
        30 => 56,
        _ => 64,
    }
}

/// The least width that is at least so many bits, or 64, the greatest, where none is.
pub fn least_width(bits: u32) -> u32
    requires { 0 < bits }
    ensures value { result ≡ least_width bits }
    ensures width { IsWidth result }
{
    match bits {
        0..=24 => bits,
        25..=26 => 26,
        27..=28 => 28,
        29..=30 => 30,
        31..=32 => 32,
        33..=40 => 40,
        41..=48 => 48,
        49..=56 => 56,
        _ => 64,
    }
}
