//! The bytes that a decoder has read and not yet given.
ghost use Rattle.std.specs.Prelude.{◌≡◌, ◌==◌, ◌+◌, ◌*◌, ◌≤◌, ◌<◌, [], ◌∷◌, ◌++◌, length, take, replicate, MatchOption, OnOk};
ghost use Rattle.outside.specs.Reading.{Reads, exactly, placed};
ghost use Rattle.orc_rle.specs.BitRun.{bits_of};

use crate::byte_bits::unpack;
use outside::{Feed, RunFault, take_exactly};
use std::marker::Model;

/// Bytes of a run, in order. It is seen as the list of those that were not given yet.
#[derive(Drop)]
pub struct HeldBytes {
    values: [u8; 130],
    from: usize,
    to: usize,
}

impl Model for HeldBytes {
    ghost use Rattle.std.specs.Prelude.{◌-◌, ◌≤◌, List, ℕ, take, drop};

    ghost Value = { List ℕ };

    ghost view = { λ held. take (held.to - held.from) (drop held.from held.values) };

    ghost invariant = { λ held. (held.from ≤ held.to) × (held.to ≤ 130) };
}

impl HeldBytes {
    /// No bytes.
    pub fn new() -> HeldBytes
        ensures { result ≡ [] }
    {
        HeldBytes {
            values: [0; 130],
            from: 0,
            to: 0,
        }
    }

    /// Whether no byte is left.
    pub fn is_empty(&self) -> bool
        ensures { result ≡ (length self.now == 0) }
    {
        self.from == self.to
    }

    /// Gives as many bytes as there is room for, and answers how many.
    pub fn give(&mut self, out: &mut [u8]) -> usize
        ensures room { result ≤ length out.old }
        ensures parts { self.old ≡ take result out.new ++ self.new }
        ensures all { result < length out.old → self.new ≡ [] }
    {
        let held = &self.values[self.from..self.to];
        let count = held.len().min(out.len());
        let (front, _) = out.split_at_mut(count);
        front.copy_from_slice(&held[..count]);
        self.from += count;
        count
    }

    /// Gives one byte, if there is any.
    pub fn next(&mut self) -> Option<u8>
        ensures { MatchOption result ((self.old ≡ []) × (self.new ≡ [])) (λ byte. self.old ≡ byte ∷ self.new) }
    {
        if self.from == self.to {
            return None;
        }
        let byte = self.values[self.from];
        self.from += 1;
        Some(byte)
    }

    /// Gives the bits of as many whole bytes as there is room for, and answers how many bits.
    pub fn give_bits(&mut self, out: &mut [bool]) -> usize
        ensures room { result ≤ length out.old }
        ensures parts { bits_of self.old ≡ take result out.new ++ bits_of self.new }
        ensures all { result + 8 ≤ length out.old → self.new ≡ [] }
    {
        let held = &self.values[self.from..self.to];
        let count = held.len().min(out.len() / 8);
        let (front, _) = out.split_at_mut(8 * count);
        unpack(&held[..count], front);
        self.from += count;
        8 * count
    }

    /// Holds copies of one byte, in the place of the bytes that were held.
    pub fn repeat(&mut self, count: usize, value: u8)
        requires { count ≤ 130 }
        ensures { self.new ≡ replicate count value }
    {
        let (front, _) = self.values.split_at_mut(count);
        front.fill(value);
        self.from = 0;
        self.to = count;
    }

    /// Takes just so many bytes of a stream, and holds them in the place of those that were held.
    ///
    /// Answers as `take_exactly` does; after a fault what is held isn't promised.
    pub fn take<F: Feed>(&mut self, feed: &mut F, stream: u32, count: usize) -> Result<(), RunFault>
        requires { count ≤ 130 }
        ensures reads { Reads F.rest F.fed F.fault_count stream (exactly count) feed.old feed.new (placed self.new result) }
        ensures some { 0 < count → OnOk result (0 < length self.new) }
    {
        let (front, _) = self.values.split_at_mut(count);
        take_exactly(feed, stream, front)?;
        self.from = 0;
        self.to = count;
        Ok(())
    }
}
