//! A reader that opens streams at ranges of files, and feeds them.
ghost use Rattle.std.specs.Prelude.{◌≡◌, ◌≢◌, ◌<◌, ◌≤◌, ◌+◌, ℕ, List, [], ◌∷◌, ◌++◌, Some, OnOk, OnErr, length, slice_range};
ghost use Rattle.outside.specs.Cause.{Cause};
ghost use Rattle.outside.specs.Feed.{Taken, taken_of};
ghost use Rattle.outside.specs.Files.{HasBytes, range_of};
ghost use Rattle.outside.specs.Reads.{ReadEntry};
ghost use Rattle.orc_streams.specs.Acts.{Act, closes, read_acts, take_acts, open_acts, FailedToOpen};
ghost use Rattle.orc_streams.specs.Readable.{IsReadable};

use crate::layout::Span;
use outside::{Failed, Feed, FileRef, RangeReader, World};
use std::alloc::Global;

/// Why a stream isn't open.
#[derive(Clone, Copy)]
pub enum OpenFault {
    /// A read failed.
    Read(Failed),
    /// Memory was refused.
    NoMemory,
}

/// A reader of ranges that opens streams at ranges of files, and feeds them.
///
/// What it does is told as one list of acts: reads, openings, takes and closings. A form that reads a stream whole where it is
/// opened, and one that reads parts of it where they are taken, have the same acts.
pub trait StreamReader<W: World>: RangeReader<W> + Feed {
    /// That it went from the first state to the last by these acts, in their order.
    ghost did: { Self → List Act → Self → Type 0 };

    /// Opens a stream at a range of a file, in place of what it was.
    ///
    /// Streams have the numbers 0 to 63. The range lies in the file. Other streams stay as they are; after an error all do.
    /// `Read` comes only where the count of faults rose in this call, and `NoMemory` where memory was refused.
    fn open(
        &mut self,
        alloc: Global,
        stream: u32,
        file: FileRef,
        span: Span,
    ) -> Result<(), OpenFault>
        requires few { stream < 64 }
        requires in_range { span.at + span.len ≤ file.len }
        requires readable { IsReadable W.files file }

        // Where files are told, the stream has the range's bytes; told or not, it has as many.
        ensures bytes { OnOk result ((bytes : List ℕ) → HasBytes W.files file bytes
            → Self.rest self.new stream ≡ Some (slice_range bytes span.at (span.at + span.len))) }
        ensures size { OnOk result ((bytes : List ℕ) → Self.rest self.new stream ≡ Some bytes → length bytes ≡ span.len) }
        ensures others { (other : ℕ) → other ≢ stream → Self.rest self.new other ≡ Self.rest self.old other }
        ensures refused { OnErr result (Self.rest self.new stream ≡ Self.rest self.old stream) }
        ensures acts { did self.old (open_acts stream (range_of file span.at span.len) result) self.new }
        ensures cause { Cause (Self.Feed.fault_count self.old) (Self.Feed.fault_count self.new) (FailedToOpen result) };

    /// Closes all streams: nothing is left of any.
    fn close(&mut self)
        ensures left { (stream : ℕ) (bytes : List ℕ) → Self.rest self.new stream ≡ Some bytes → bytes ≡ [] }
        ensures acts { did self.old (closes ∷ []) self.new }
        ensures count { Self.Feed.fault_count self.new ≡ Self.Feed.fault_count self.old };

    /// Where nothing was done, there was no act.
    ghost did_nothing: { (reader : Self) → did reader [] reader };

    /// Acts that follow one another are one list.
    ghost did_joined: { (first between last : Self) (front back : List Act)
        → did first front between → did between back last → did first (front ++ back) last };

    /// An act, and then a list of acts.
    ghost did_next: { (first between last : Self) (act : Act) (rest : List Act)
        → did first (act ∷ []) between → did between rest last → did first (act ∷ rest) last };

    /// Reads are acts.
    ghost did_read: { (first last : Self) (entries : List ReadEntry) → Self.went first entries last → did first (read_acts entries) last };

    /// And so are takes.
    ghost did_take: { (first last : Self) (takes : List Taken) → Self.fed first takes last → did first (take_acts takes) last };

    /// Reads leave the streams as they are.
    ghost reads_leave: { (first last : Self) (entries : List ReadEntry) (stream : ℕ)
        → Self.went first entries last → Self.rest last stream ≡ Self.rest first stream };

    /// And takes those of which they took nothing.
    ghost takes_leave: { (first last : Self) (takes : List Taken) (stream : ℕ) → Self.fed first takes last → taken_of stream takes ≡ 0
        → Self.rest last stream ≡ Self.rest first stream };

    /// Its two counts of faults are one.
    ghost one_count: { (reader : Self) → Self.RangeReader.fault_count reader ≡ Self.Feed.fault_count reader };
}
