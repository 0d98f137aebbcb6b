//! Runs of bits.
ghost use Rattle.std.specs.Prelude.{[], IfOk};
ghost use Rattle.outside.specs.Runs.{Spells};
ghost use Rattle.orc_rle.specs.BitRun.{BitRun};

use crate::byte_stream::write_bytes;
use crate::octets::octets_of;
use outside::NoMemory;
use std::alloc::Global;

/// The stream of these bits: runs of the bytes that hold eight each, the highest first, and the last is padded.
///
/// Answers `NoMemory` where memory was refused.
///
/// Source: Apache ORC specification v1, "Boolean Run Length Encoding".
pub fn write_bits(alloc: Global, flags: &[bool]) -> Result<Vec<u8>, NoMemory>
    ensures { IfOk result (λ stream. Spells BitRun stream.items flags.now []) }
{
    orc_rle::laws::bits_are_bits_of_bytes();
    let octets = octets_of(alloc, flags)?;
    write_bytes(alloc, &octets)
}
