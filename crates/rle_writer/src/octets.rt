//! Flags as the bits of bytes.
ghost use Rattle.std.specs.Prelude.{◌≡◌, ◌≤◌, ◌<◌, length, take, IfOk};
ghost use Rattle.orc_rle.specs.BitRun.{byte_bits, bits_of, bytes_for};

use crate::adding::put;
use outside::NoMemory;
use std::alloc::Global;

/// The bytes whose first bits are these flags: eight a byte, the highest first, and the last is padded with zeros.
pub fn octets_of(alloc: Global, flags: &[bool]) -> Result<Vec<u8>, NoMemory>
    ensures { IfOk result (λ octets. (length octets.items ≡ bytes_for (length flags.now))
        × (flags.now ≡ take (length flags.now) (bits_of octets.items))) }
{
    let mut octets = Vec::new(alloc);
    let mut rest = flags;
    while let Some((eight, more)) = rest.split_first_chunk::<8>() {
        put(&mut octets, &[octet_of(eight)])?;
        rest = more;
    }
    if rest.is_empty() {
        return Ok(octets);
    }
    put(&mut octets, &[octet_of(&padded(rest))])?;
    Ok(octets)
}

/// Fewer than eight flags, and others behind them that aren't set.
fn padded(flags: &[bool]) -> [bool; 8]
    requires { length flags.now < 8 }
    ensures { take (length flags.now) result ≡ flags.now }
{
    let mut eight = [false; 8];
    for (i, flag) in flags.iter().enumerate() {
        eight[i] = *flag;
    }
    eight
}

/// The byte of eight bits, the highest first.
fn octet_of(eight: &[bool; 8]) -> u8
    ensures { byte_bits result ≡ eight.now }
{
    let mut number: u8 = u8::from(eight[0]);
    number = 2 * number + u8::from(eight[1]);
    number = 2 * number + u8::from(eight[2]);
    number = 2 * number + u8::from(eight[3]);
    number = 2 * number + u8::from(eight[4]);
    number = 2 * number + u8::from(eight[5]);
    number = 2 * number + u8::from(eight[6]);
    2 * number + u8::from(eight[7])
}
