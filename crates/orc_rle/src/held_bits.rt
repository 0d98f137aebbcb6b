//! The bits that a decoder has read and not yet given.
ghost use Rattle.std.specs.Prelude.{◌≡◌, ◌==◌, ◌≤◌, ◌<◌, true, false, [], ◌++◌, length, take, Ok, OnOk};
ghost use Rattle.outside.specs.Reading.{Reads, placed};
ghost use Rattle.orc_rle.specs.BitRun.{bit_run, bits_of};
ghost use Rattle.orc_rle.specs.EmptyStream.{unless_empty, found};

use crate::byte_run::{read_byte_run, read_byte_run_unless_empty};
use crate::held_bytes::HeldBytes;
use crate::open_byte::OpenByte;
use outside::{Feed, RunFault};
use std::marker::Model;

/// Bits of a run, in order: those that are left of one byte, and then whole bytes. It is seen as the list of
/// the bits that were not given yet.
#[derive(Drop)]
pub struct HeldBits {
    first: OpenByte,
    bytes: HeldBytes,
}

impl Model for HeldBits {
    ghost use Rattle.std.specs.Prelude.{◌++◌, List, Bool};
    ghost use Rattle.orc_rle.specs.BitRun.{bits_of};

    ghost Value = { List Bool };

    ghost view = { λ held. held.first ++ bits_of held.bytes };
}

impl HeldBits {
    /// No bits.
    pub fn new() -> HeldBits
        ensures { result ≡ [] }
    {
        HeldBits {
            first: OpenByte::none(),
            bytes: HeldBytes::new(),
        }
    }

    /// Whether no bit is left.
    pub fn is_empty(&self) -> bool
        ensures { result ≡ (length self.now == 0) }
    {
        self.first.is_empty() && self.bytes.is_empty()
    }

    /// Gives as many bits as there is room for, and answers how many.
    pub fn give(&mut self, out: &mut [bool]) -> usize
        ensures room { result ≤ length out.old }
        ensures parts { self.old ≡ take result out.new ++ self.new }
        ensures all { result < length out.old → self.new ≡ [] }
    {
        let begun = self.first.give(out);
        let (_, out) = out.split_at_mut(begun);
        let whole = self.bytes.give_bits(out);
        let (_, out) = out.split_at_mut(whole);
        begun + whole + begin(&mut self.first, &mut self.bytes, out)
    }

    /// Reads a run of bytes, and holds their bits in the place of those that were held.
    pub fn read_run<F: Feed>(&mut self, feed: &mut F, stream: u32) -> Result<(), RunFault>
        ensures reads { Reads F.rest F.fed F.fault_count stream bit_run feed.old feed.new (placed self.new result) }
        ensures some { OnOk result (0 < length self.new) }
    {
        self.first = OpenByte::none();
        read_byte_run(feed, stream, &mut self.bytes)
    }

    /// Reads a run as `read_run` does, unless no byte of the stream is left: then it answers false, and still
    /// holds nothing.
    pub fn read_run_unless_empty<F: Feed>(
        &mut self,
        feed: &mut F,
        stream: u32,
    ) -> Result<bool, RunFault>
        requires { self.old ≡ [] }
        ensures reads { Reads F.rest F.fed F.fault_count stream (unless_empty bit_run) feed.old feed.new (found self.new result) }
        ensures some { result ≡ Ok true → 0 < length self.new }
        ensures same { result ≡ Ok false → self.new ≡ [] }
    {
        self.first = OpenByte::none();
        read_byte_run_unless_empty(feed, stream, &mut self.bytes)
    }
}

/// Gives the first bits of the next byte, where there is room for some of them, and keeps it open.
fn begin(first: &mut OpenByte, bytes: &mut HeldBytes, out: &mut [bool]) -> usize
    requires given { 0 < length out.old → first.old ≡ [] }
    requires short { 8 ≤ length out.old → bytes.old ≡ [] }
    ensures room { result ≤ length out.old }
    ensures parts { first.old ++ bits_of bytes.old ≡ take result out.new ++ (first.new ++ bits_of bytes.new) }
    ensures all { result < length out.old → first.new ++ bits_of bytes.new ≡ [] }
{
    if out.is_empty() {
        return 0;
    }
    let Some(byte) = bytes.next() else {
        return 0;
    };
    *first = OpenByte::new(byte);
    first.give(out)
}
