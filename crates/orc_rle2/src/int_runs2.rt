//! The decoder of runs of integers, version 2.
ghost use Rattle.std.specs.Prelude.{◌≡◌, ◌<◌, [], length, None, Some, Ok, Err};
ghost use Rattle.std.specs.Result.{result_err};
ghost use Rattle.outside.specs.declared.run_fault.RunFault.{RunFault};
ghost use Rattle.outside.specs.Filling.{Fills};
ghost use Rattle.outside.specs.Reading.{placed};
ghost use Rattle.orc_integers.specs.Given.{given_of, GivesSomeIfOk};
ghost use Rattle.orc_rle2.specs.IntRun2.{IntRun2, int_run2};

use crate::run2::give_run;
use crate::run2_in::give_runs_in;
use orc_integers::{Held, RunRoom};
use outside::{Feed, RunFault, skip_exactly};
use std::marker::Model;

/// A decoder of the integers of one stream.
///
/// It reads whole runs, one at a time, and only when it needs a value that it doesn't hold. It is seen as its
/// stream, its sign, the values that it holds, and the fault that it has answered, if any.
#[derive(Drop)]
pub struct IntRuns2 {
    stream: u32,
    signed: bool,
    held: Held,
    fault: Option<RunFault>,
}

impl Model for IntRuns2 {
    ghost use Rattle.orc_integers.specs.IntDecoder.{IntDecoder};

    ghost Value = { IntDecoder };

    ghost view = { λ d. record { stream = d.stream; signed = d.signed; held = d.held; fault = d.fault } };
}

impl IntRuns2 {
    /// A decoder of a stream from its start, of signed or of unsigned values, with that room for a run.
    pub fn new(room: RunRoom, stream: u32, signed: bool) -> IntRuns2
        ensures { result ≡ record { stream = stream; signed = signed; held = []; fault = None } }
    {
        IntRuns2 {
            stream,
            signed,
            held: Held::new(room),
            fault: None,
        }
    }

    /// Gives the next `out.len()` values. An unsigned value is given as its 64 bits.
    ///
    /// Bytes behind the last run that is needed aren't looked at. Answers the first fault in the order of the
    /// bytes exactly where the stream doesn't spell so many values: `StreamEnds`, `LongVarint` in a run of deltas,
    /// `PatchTooWide` behind the header of a run with patches, or `PatchOutOfRun` behind its last byte. `Read` comes
    /// only where the feed failed in this call. After a fault each later call answers the same and takes
    /// nothing, and what `out` holds isn't promised.
    ///
    /// Source: Apache ORC specification v1, "Integer Run Length Encoding, version 2".
    pub fn fill<F: Feed>(&mut self, feed: &mut F, out: &mut [i64]) -> Result<(), RunFault>
        // It stays a decoder of its stream.
        ensures stream { self.new.stream ≡ self.old.stream }
        ensures signed { self.new.signed ≡ self.old.signed }

        // A fault is kept, and answered again.
        ensures keeps { self.new.fault ≡ result_err result }
        ensures kept { (fault : RunFault) → self.old.fault ≡ Some fault → (result ≡ Err fault) × (feed.new ≡ feed.old) }

        // Before that the values are those that the runs of the stream spell, or it breaks before them.
        ensures fills { self.old.fault ≡ None →
            Fills F.rest F.fed F.fault_count (IntRun2 self.old.signed) (int_run2 self.old.signed) self.old.stream
            feed.old feed.new self.old.held self.new.held (length out.old) (placed out.new result) }
    {
        if let Some(fault) = self.fault {
            return Err(fault);
        }
        let filled = fill_on(feed, self.stream, self.signed, &mut self.held, out);
        self.fault = filled.err();
        filled
    }
}

fn fill_on<F: Feed>(
    feed: &mut F,
    stream: u32,
    signed: bool,
    held: &mut Held,
    out: &mut [i64],
) -> Result<(), RunFault>
    ensures { Fills F.rest F.fed F.fault_count (IntRun2 signed) (int_run2 signed) stream
        feed.old feed.new held.old held.new (length out.old) (placed out.new result) }
{
    let mut given = held.give(out);
    while given < out.len() {
        let (_, open) = out.split_at_mut(given);
        given += give_runs(feed, stream, signed, held, open)?;
    }
    Ok(())
}

/// Gives the values of the runs that stand whole in what the feed lends, until `out` is full; where none is read there,
/// the values of one run. Answers how many were given.
fn give_runs<F: Feed>(
    feed: &mut F,
    stream: u32,
    signed: bool,
    held: &mut Held,
    out: &mut [i64],
) -> Result<usize, RunFault>
    requires none { held.old ≡ [] }
    requires asked { 0 < length out.old }
    ensures fills { Fills F.rest F.fed F.fault_count (IntRun2 signed) (int_run2 signed) stream
        feed.old feed.new [] held.new (length out.old) (given_of out.new result) }
    ensures gives { GivesSomeIfOk (length out.old) held.new result }
{
    let lent = feed.lent(stream);
    let (given, left) = give_runs_in(lent, signed, held, out);
    let used = lent.len() - left.len();
    if given == 0 {
        return give_run(feed, stream, signed, held, out);
    }
    skip_exactly(feed, stream, used)?;
    Ok(given)
}
