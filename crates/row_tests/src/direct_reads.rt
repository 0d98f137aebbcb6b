//! A column's streams are read directly from a store that tells its reads.
ghost use Rattle.std.specs.Prelude.{◌≡◌, Some, IfSome};
ghost use Rattle.row_tests.specs.StripeWorld.{stripe_files, told_are_files};

use orc_streams::{ColumnLayout, DirectReader, Span, StoredStreams, StreamReader, open_column};
use orc_tail::Encoding;
use outside::{Bytes, Feed, FileRange, FileRef, MemoryStore, Name, World};
use std::alloc::Global;

/// The world of one file of eight bytes, 1 to 8.
struct StripeWorld;

impl World for StripeWorld {
    ghost files = { Some stripe_files };

    ghost are_files = { λ told e. told_are_files told e };
}

/// The files of the world.
fn files(alloc: Global) -> Option<Vec<(Name, Bytes)>>
    ensures { IfSome result (λ files. files.items ≡ stripe_files) }
{
    let name = Name::new(String::from_str(alloc, "s").ok()?);
    let bytes = Bytes::new([1, 2, 3, 4, 5, 6, 7, 8].to_vec(alloc).ok()?);
    let mut files = Vec::new(alloc);
    files.push((name, bytes)).ok()?;
    Some(files)
}

const FILE: FileRef = FileRef { number: 0, len: 8 };

/// A column of texts by a dictionary without bytes in PRESENT.
const LAYOUT: ColumnLayout = ColumnLayout {
    kind: 7,
    encoding: Some(Encoding {
        kind: 1,
        dictionary_size: 2,
    }),
    present: None,
    body: Some(Span { at: 4, len: 3 }),
    length: Some(Span { at: 0, len: 1 }),
    dictionary: Some(Span { at: 1, len: 2 }),
};

/// The reads of its streams, in the order of their kinds.
const READS: [FileRange; 3] = [
    FileRange {
        file: 0,
        at: 4,
        len: 3,
    },
    FileRange {
        file: 0,
        at: 0,
        len: 1,
    },
    FileRange {
        file: 0,
        at: 1,
        len: 2,
    },
];

/// Whether the column opens as the second of those that are read, feeds the bytes of its own ranges, and is gone once closed.
fn opens(alloc: Global, store: &mut MemoryStore<StripeWorld>) -> bool {
    let mut streams = StoredStreams::new(alloc);
    let mut reader = DirectReader::new(store, &mut streams);
    let Ok(()) = open_column(alloc, &mut reader, FILE, 1, LAYOUT) else {
        return false;
    };
    let mut four = [0u8; 4];
    let none = reader.take(4, &mut four) == Ok(0) && reader.take(0, &mut four) == Ok(0);
    let data = reader.take(5, &mut four) == Ok(3) && four == [5, 6, 7, 0];
    reader.close();
    none && data && reader.take(7, &mut four) == Ok(0)
}

/// Whether it opens unless a call of the store fails (0: none does), and just the first so many ranges were read.
fn reads_its_ranges(alloc: Global, failing: u64, reads: usize) -> Option<bool> {
    let fails = [failing].to_vec(alloc).ok()?;
    let mut store = MemoryStore::<StripeWorld>::new(alloc, files(alloc)?, fails, 8).ok()?;
    let opened = opens(alloc, &mut store);
    Some(store.logged() == READS.get(..reads) && opened == (failing == 0))
}

#[test]
fn a_column_is_read_by_its_ranges(rt: HostRuntime) {
    assert!(rt; reads_its_ranges(rt.alloc(), 0, 3) == Some(true));
    assert!(rt; reads_its_ranges(rt.alloc(), 2, 1) == Some(true));
}
