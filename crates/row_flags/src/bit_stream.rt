//! The bits of a stream.
ghost use Rattle.std.specs.Prelude.{◌≡◌, [], length, None, OnOk};
ghost use Rattle.outside.specs.Reading.{placed};
ghost use Rattle.orc_rle.specs.BitRun.{BitRun, bit_run};
ghost use Rattle.row_flags.specs.Optional.{FillsIn};

use orc_rle::Bits;
use outside::{Feed, RunFault};
use std::marker::Model;

/// The bits of one stream, which may be lacking and is then read as an empty one.
#[derive(Drop)]
pub struct BitStream {
    stream: Option<u32>,
    bits: Bits,
}

impl Model for BitStream {
    ghost use Rattle.row_flags.specs.Decoders.{BitsOf, bits_in, BitsOn};

    ghost Value = { BitsOf };

    ghost view = { λ s. bits_in s.stream s.bits };

    ghost invariant = { λ s. BitsOn s.stream s.bits };
}

impl BitStream {
    /// The bits of a stream from its start.
    pub fn new(stream: Option<u32>) -> BitStream
        ensures { result ≡ record { stream = stream; held = []; fault = None } }
    {
        BitStream {
            stream,
            bits: Bits::new(stream.unwrap_or(0)),
        }
    }

    /// Gives the next `out.len()` bits.
    ///
    /// Answers as `Bits::fill` does; a lacking stream ends before its first bit.
    pub fn fill<F: Feed>(&mut self, feed: &mut F, out: &mut [bool]) -> Result<(), RunFault>
        ensures stream { self.new.stream ≡ self.old.stream }
        ensures whole { self.old.fault ≡ None → OnOk result (self.new.fault ≡ None) }
        ensures fills { self.old.fault ≡ None →
            FillsIn F.rest F.fed F.fault_count BitRun bit_run
            self.old.stream feed.old feed.new self.old.held self.new.held (length out.old) (placed out.new result) }
    {
        if self.stream.is_some() {
            self.bits.fill(feed, out)
        } else if out.is_empty() {
            Ok(())
        } else {
            Err(RunFault::StreamEnds)
        }
    }
}
