//! The integers of a stream, in runs of either version.
ghost use Rattle.std.specs.Prelude.{◌≡◌, [], length, None, OnOk};
ghost use Rattle.outside.specs.Reading.{placed};
ghost use Rattle.row_flags.specs.Optional.{FillsIn};
ghost use Rattle.orc_columns.specs.Spelling.{IntRun, int_run};

use crate::spelling::Version;
use orc_integers::RunRoom;
use orc_rle::IntRuns1;
use orc_rle2::IntRuns2;
use outside::{Feed, RunFault};
use std::marker::Model;

/// A decoder of runs of one version.
#[derive(Drop)]
pub(crate) enum IntRuns {
    One(IntRuns1),
    Two(IntRuns2),
}

/// The integers of one stream, which may be lacking and is then read as an empty one.
#[derive(Drop)]
pub(crate) struct Integers {
    stream: Option<u32>,
    runs: IntRuns,
}

impl Model for Integers {
    ghost use Rattle.orc_columns.specs.Decoders.{IntegersOf, integers_of, IsOn};

    ghost Value = { IntegersOf };

    ghost view = { λ integers. integers_of integers.stream integers.runs };

    ghost invariant = { λ integers. IsOn integers.stream integers.runs };
}

impl Integers {
    /// The integers of a stream from its start, with that room for a run.
    pub(crate) fn new(
        room: RunRoom,
        stream: Option<u32>,
        version: Version,
        signed: bool,
    ) -> Integers
        ensures { result ≡ record { stream = stream; version = version; signed = signed; held = []; fault = None } }
    {
        let number = stream.unwrap_or(0);
        let runs = match version {
            Version::One => IntRuns::One(IntRuns1::new(room, number, signed)),
            Version::Two => IntRuns::Two(IntRuns2::new(room, number, signed)),
        };
        Integers { stream, runs }
    }

    /// Gives the next `out.len()` integers, an unsigned one as its 64 bits.
    ///
    /// Answers as `IntRuns1::fill` and `IntRuns2::fill` do; a lacking stream ends before its first integer.
    pub(crate) fn fill<F: Feed>(&mut self, feed: &mut F, out: &mut [i64]) -> Result<(), RunFault>
        ensures stream { self.new.stream ≡ self.old.stream }
        ensures version { self.new.version ≡ self.old.version }
        ensures signed { self.new.signed ≡ self.old.signed }
        ensures whole { self.old.fault ≡ None → OnOk result (self.new.fault ≡ None) }
        ensures fills { self.old.fault ≡ None →
            FillsIn F.rest F.fed F.fault_count (IntRun self.old.version self.old.signed) (int_run self.old.version self.old.signed)
            self.old.stream feed.old feed.new self.old.held self.new.held (length out.old) (placed out.new result) }
    {
        if self.stream.is_none() {
            return if out.is_empty() {
                Ok(())
            } else {
                Err(RunFault::StreamEnds)
            };
        }
        match &mut self.runs {
            IntRuns::One(runs) => runs.fill(feed, out),
            IntRuns::Two(runs) => runs.fill(feed, out),
        }
    }
}
