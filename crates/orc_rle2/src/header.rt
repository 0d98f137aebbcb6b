//! The header of a run.
ghost use Rattle.std.specs.Prelude.{◌≡◌, ◌≤◌, ◌<◌, ◌+◌, ◌/◌, ◌%◌, IfOk, IfSome};
ghost use Rattle.outside.specs.Lending.{ReadsIn};
ghost use Rattle.outside.specs.Reading.{Reads};
ghost use Rattle.orc_rle2.specs.Header.{run_header, long_header, count_of, IsBounded};
ghost use Rattle.orc_rle2.specs.IntRun2.{code_of, run_len};
ghost use Rattle.orc_rle2.specs.declared.header.Header.TheVariants.{Repeat};

use crate::widths::width_of;
use outside::{Feed, RunFault, take_byte};

/// The form of a run, with what its body is read by, and how many values it has.
#[derive(Clone, Copy)]
pub enum Header {
    /// One number of so many bytes, whose value is repeated.
    Repeat { bytes: u32, count: usize },
    /// Packed numbers of so many bits.
    Direct { width: u32, count: usize },
    /// Packed numbers of so many bits with a base and patches.
    Patched { width: u32, count: usize },
    /// A base, a delta, and packed magnitudes of the width that a code means.
    Delta { code: u32, count: usize },
}

impl Header {
    /// How many values the run has.
    pub fn count(self) -> usize
        ensures { result ≡ count_of self }
    {
        match self {
            Header::Repeat { count, .. } => count,
            Header::Direct { count, .. } => count,
            Header::Patched { count, .. } => count,
            Header::Delta { count, .. } => count,
        }
    }
}

/// Reads the header of a run.
pub fn read_header<F: Feed>(feed: &mut F, stream: u32) -> Result<Header, RunFault>
    ensures reads { Reads F.rest F.fed F.fault_count stream run_header feed.old feed.new result }
    ensures bounded { IfOk result IsBounded }
    ensures some { IfOk result (λ header. 0 < count_of header) }
    ensures most { IfOk result (λ header. count_of header ≤ 512) }
{
    let first = take_byte(feed, stream)?;
    if first < 64 {
        return Ok(short_header(first));
    }
    let second = take_byte(feed, stream)?;
    Ok(long_header(first, second))
}

/// The header that is the front of these bytes, and the bytes behind it; `None` where no whole header is.
#[inline(always)]
pub fn header_in<'a>(bytes: &'a [u8]) -> Option<(Header, &'a [u8])>
    ensures reads { IfSome result (λ p. ReadsIn run_header bytes.now p.0 p.1.now) }
    ensures bounded { IfSome result (λ p. IsBounded p.0) }
    ensures some { IfSome result (λ p. 0 < count_of p.0) }
    ensures most { IfSome result (λ p. count_of p.0 ≤ 512) }
{
    let (first, rest) = bytes.split_first()?;
    if *first < 64 {
        return Some((short_header(*first), rest));
    }
    let (second, left) = rest.split_first()?;
    Some((long_header(*first, *second), left))
}

/// What the first byte of a short repeat says.
#[inline(always)]
fn short_header(first: u8) -> Header
    requires { first < 64 }
    ensures value { result ≡ Repeat (first / 8 + 1) (first % 8 + 3) }
    ensures bounded { IsBounded result }
    ensures some { 0 < count_of result }
    ensures most { count_of result ≤ 512 }
{
    Header::Repeat {
        bytes: u32::from(first / 8 + 1),
        count: usize::from(first % 8 + 3),
    }
}

/// What the first two bytes of a form but short repeat say.
#[inline(always)]
fn long_header(first: u8, second: u8) -> Header
    ensures value { result ≡ long_header first (code_of first) (run_len first second) }
    ensures bounded { IsBounded result }
    ensures some { 0 < count_of result }
    ensures most { count_of result ≤ 512 }
{
    let code = u32::from(first / 2 % 32);
    let count = 256 * usize::from(first % 2) + usize::from(second) + 1;
    if first < 128 {
        Header::Direct {
            width: width_of(code),
            count,
        }
    } else if first < 192 {
        Header::Patched {
            width: width_of(code),
            count,
        }
    } else {
        Header::Delta { code, count }
    }
}
