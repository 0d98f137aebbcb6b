//! The bits of one byte that are still to be given.
ghost use Rattle.std.specs.Prelude.{◌≡◌, ◌==◌, ◌≤◌, ◌<◌, [], ◌++◌, length, take};
ghost use Rattle.orc_rle.specs.BitRun.{byte_bits};

use crate::byte_bits::bits_of_byte;
use std::marker::Model;

/// The bits of one byte, in order. It is seen as the list of those that were not given yet.
#[derive(Drop)]
pub struct OpenByte {
    bits: [bool; 8],
    from: usize,
}

impl Model for OpenByte {
    ghost use Rattle.std.specs.Prelude.{◌≤◌, List, Bool, drop};

    ghost Value = { List Bool };

    ghost view = { λ byte. drop byte.from byte.bits };

    ghost invariant = { λ byte. byte.from ≤ 8 };
}

impl OpenByte {
    /// No bits.
    pub fn none() -> OpenByte
        ensures { result ≡ [] }
    {
        OpenByte {
            bits: [false; 8],
            from: 8,
        }
    }

    /// All bits of a byte.
    pub fn new(byte: u8) -> OpenByte
        ensures { result ≡ byte_bits byte }
    {
        OpenByte {
            bits: bits_of_byte(byte),
            from: 0,
        }
    }

    /// Whether no bit is left.
    pub fn is_empty(&self) -> bool
        ensures { result ≡ (length self.now == 0) }
    {
        self.from == 8
    }

    /// Gives as many bits as there is room for, and answers how many.
    pub fn give(&mut self, out: &mut [bool]) -> usize
        ensures room { result ≤ length out.old }
        ensures parts { self.old ≡ take result out.new ++ self.new }
        ensures all { result < length out.old → self.new ≡ [] }
    {
        // Mostly a batch ends with a byte, and then no copy of nothing is called.
        if self.from == 8 {
            return 0;
        }
        let left = &self.bits[self.from..];
        let count = left.len().min(out.len());
        let (front, _) = out.split_at_mut(count);
        front.copy_from_slice(&left[..count]);
        self.from += count;
        count
    }
}
