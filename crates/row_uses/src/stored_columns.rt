//! A column's streams, opened in a store.
ghost use Rattle.std.specs.Prelude.{◌≡◌, OnOk};
ghost use Rattle.outside.specs.Cause.{Cause};
ghost use Rattle.outside.specs.Told.{Extended};
ghost use Rattle.orc_streams.specs.Acts.{FailedToOpen};
ghost use Rattle.orc_streams.specs.Layout.{EndsBy};
ghost use Rattle.orc_streams.specs.Openings.{spans_of, openings_at};
ghost use Rattle.orc_streams.specs.Readable.{IsReadable};
ghost use Rattle.row_uses.specs.Ranges.{ranges_at};

use orc_streams::{ColumnLayout, DirectReader, OpenFault, StoredStreams, open_column};
use outside::{FileRef, Store, World};
use std::alloc::Global;

/// Reads the streams of a column from a store, each whole, and lets go of them.
///
/// After Ok just the ranges of its streams were read, each once and in order, if the store tells its reads.
pub fn open_in_store<W: World, S: Store<W>>(
    alloc: Global,
    store: &mut S,
    file: FileRef,
    layout: ColumnLayout,
) -> Result<(), OpenFault>
    requires readable { IsReadable W.files file }
    requires in_file { EndsBy file.len layout }
    ensures log { OnOk result (Extended (S.reads store.old) (S.reads store.new) (ranges_at file (spans_of (openings_at 0 layout)))) }
    ensures cause { Cause (S.fault_count store.old) (S.fault_count store.new) (FailedToOpen result) }
{
    let mut streams = StoredStreams::new(alloc);
    let mut reader = DirectReader::new(store, &mut streams);
    open_column(alloc, &mut reader, file, 0, layout)
}
