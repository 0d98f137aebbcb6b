//! Opens the streams of a stripe's columns.
ghost use Rattle.std.specs.Prelude.{◌≡◌, ◌<◌, ◌≤◌, ◌+◌, ℕ, List, All, OnOk, length};
ghost use Rattle.outside.specs.Files.{HasBytes};
ghost use Rattle.orc_columns.specs.Draws.{Tells};
ghost use Rattle.orc_columns.specs.Reader.{HasLengths};
ghost use Rattle.orc_streams.specs.Layout.{plan_at, streams_in, SpanEndsBy, EndsBy};
ghost use Rattle.orc_streams.specs.Openings.{the_stream, spans_of, openings_at, spans_from, Rise, AllEndBy, EachTells, EachSized, OthersStay, OpensAll};
ghost use Rattle.orc_streams.specs.Readable.{IsReadable};

use crate::layout::{ColumnLayout, Span};
use crate::stream_reader::{OpenFault, StreamReader};
use outside::{FileRef, World};
use std::alloc::Global;

/// A stream that is to be opened, where it is there.
#[derive(Clone, Copy)]
pub struct Opening {
    /// Its number in the feed.
    pub stream: u32,
    /// Where it lies.
    pub span: Option<Span>,
}

/// Opens a stream, where it is there.
fn open_one<W: World, S: StreamReader<W>>(
    alloc: Global,
    reader: &mut S,
    file: FileRef,
    opening: Opening,
) -> Result<(), OpenFault>
    requires few { opening.stream < 64 }
    requires readable { IsReadable W.files file }
    requires in_file { SpanEndsBy file.len opening.span }
    ensures { OpensAll S.did S.rest S.Feed.fault_count W.files file (the_stream opening.stream opening.span) reader.old reader.new result }
{
    match opening.span {
        Some(span) => reader.open(alloc, opening.stream, file, span),
        None => Ok(()),
    }
}

/// Opens those of these streams that are there, in order.
fn open_each<W: World, S: StreamReader<W>>(
    alloc: Global,
    reader: &mut S,
    file: FileRef,
    openings: &[Opening],
) -> Result<(), OpenFault>
    requires rise { Rise openings.now }
    requires readable { IsReadable W.files file }
    requires in_file { AllEndBy file.len openings.now }
    ensures { OpensAll S.did S.rest S.Feed.fault_count W.files file (spans_of openings.now) reader.old reader.new result }
{
    let Some((opening, others)) = openings.split_first() else {
        return Ok(());
    };
    match open_one(alloc, reader, file, *opening) {
        Ok(()) => open_each(alloc, reader, file, others),
        Err(fault) => Err(fault),
    }
}

/// Opens the streams of the column of that index: PRESENT, DATA, LENGTH and DICTIONARY_DATA, where they are there.
///
/// The column of index i, of at most 16, has the numbers that `ColumnLayout::plan` gives it; its streams lie in the file. After an
/// error the streams in front of the one that isn't open are. `Read` comes only where the reader's faults rose in this call, and
/// `NoMemory` where memory was refused.
pub fn open_column<W: World, S: StreamReader<W>>(
    alloc: Global,
    reader: &mut S,
    file: FileRef,
    index: u32,
    layout: ColumnLayout,
) -> Result<(), OpenFault>
    requires few { index < 16 }
    requires readable { IsReadable W.files file }
    requires in_file { EndsBy file.len layout }

    // Told or not, just these streams were opened, in this order; no other stream changed.
    ensures opens { OpensAll S.did S.rest S.Feed.fault_count W.files file
        (spans_of (openings_at index layout)) reader.old reader.new result }

    // So the column may be started: its streams are told where the file is, and have the lengths that its plan says.
    ensures told { OnOk result ((bytes : List ℕ) → HasBytes W.files file bytes
        → Tells S.rest reader.new (plan_at index layout) (streams_in bytes layout)) }
    ensures sized { OnOk result (HasLengths S.rest reader.new (plan_at index layout)) }

    // Columns of other indices that were opened before stay as they are.
    ensures others { OthersStay S.rest index reader.old reader.new }
{
    let first = 4 * index;
    let openings = [
        Opening {
            stream: first,
            span: layout.present,
        },
        Opening {
            stream: first + 1,
            span: layout.body,
        },
        Opening {
            stream: first + 2,
            span: layout.length,
        },
        Opening {
            stream: first + 3,
            span: layout.dictionary,
        },
    ];
    open_each(alloc, reader, file, &openings)
}

/// Opens the streams of columns, of which the first has that index.
fn open_from<W: World, S: StreamReader<W>>(
    alloc: Global,
    reader: &mut S,
    file: FileRef,
    index: u32,
    layouts: &[ColumnLayout],
) -> Result<(), OpenFault>
    requires few { index + length layouts.now ≤ 16 }
    requires readable { IsReadable W.files file }
    requires in_file { All (EndsBy file.len) layouts.now }
    ensures { OpensAll S.did S.rest S.Feed.fault_count W.files file (spans_from index layouts.now) reader.old reader.new result }
{
    let Some((layout, others)) = layouts.split_first() else {
        return Ok(());
    };
    match open_column(alloc, reader, file, index, *layout) {
        Ok(()) => open_from(alloc, reader, file, index + 1, others),
        Err(fault) => Err(fault),
    }
}

/// Opens the streams of a stripe's columns, column by column, as `open_column` does each.
///
/// There are at most 16 columns, whose streams lie in the file.
pub fn open_columns<W: World, S: StreamReader<W>>(
    alloc: Global,
    reader: &mut S,
    file: FileRef,
    layouts: &[ColumnLayout],
) -> Result<(), OpenFault>
    requires few { length layouts.now ≤ 16 }
    requires readable { IsReadable W.files file }
    requires in_file { All (EndsBy file.len) layouts.now }
    ensures opens { OpensAll S.did S.rest S.Feed.fault_count W.files file (spans_from 0 layouts.now) reader.old reader.new result }
    ensures told { OnOk result ((bytes : List ℕ) → HasBytes W.files file bytes → EachTells S.rest reader.new bytes 0 layouts.now) }
    ensures sized { OnOk result (EachSized S.rest reader.new 0 layouts.now) }
{
    open_from(alloc, reader, file, 0, layouts)
}
