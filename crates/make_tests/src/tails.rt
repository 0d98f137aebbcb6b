//! Tails and stripe footers that are written: byte for byte, and read back.
use footer_writer::{StreamPart, write_stripe_footer};
use orc_tail::{Encoding, Stripe, Tail, column_named, read_tail};
use outside::{Bytes, RealWorld, StoreReader};
use std::alloc::Global;
use tail_writer::{FileColumn, write_tail};
use test_stores::{OneFile, WORKED_FILE};

const STRIPE: Stripe = Stripe {
    at: 3,
    index_len: 0,
    body_len: 3,
    footer_len: 16,
    rows: 100,
};

const DIRECT: Encoding = Encoding {
    kind: 0,
    dictionary_size: 0,
};

const DATA: StreamPart = StreamPart {
    kind: 1,
    column: 1,
    len: 3,
};

/// Adds a column of that name and kind, with a child of each of these kinds.
fn push_column(
    alloc: Global,
    columns: &mut Vec<FileColumn>,
    name: &[u8],
    kind: u64,
    children: &[u64],
) -> Option<()> {
    let column = FileColumn {
        name: Bytes::new(Vec::from_slice(alloc, name).ok()?),
        kind,
        children: Vec::from_slice(alloc, children).ok()?,
    };
    columns.push(column).ok()
}

/// Whether the worked file's stripe footer is written as it has it.
fn footer_is_written(alloc: Global) -> Option<bool> {
    let footer = write_stripe_footer(alloc, &[DATA], &[DIRECT, DIRECT]).ok()?;
    Some(footer.as_slice() == &WORKED_FILE[6..22])
}

/// Whether its tail is.
fn tail_is_written(alloc: Global) -> Option<bool> {
    let mut columns = Vec::new(alloc);
    push_column(alloc, &mut columns, b"x", 4, &[])?;
    let tail = write_tail(alloc, &[STRIPE], &columns, 100).ok()?;
    Some(tail.as_slice() == &WORKED_FILE[22..])
}

#[test]
fn a_whole_file_is_written(rt: HostRuntime) {
    assert!(rt; footer_is_written(rt.alloc()) == Some(true));
    assert!(rt; tail_is_written(rt.alloc()) == Some(true));
}

/// A file without stripes of a LONG column `x`, a LIST of LONG `l` and a STRING column `y`.
fn file_of_lists(alloc: Global) -> Option<Vec<u8>> {
    let mut columns = Vec::new(alloc);
    push_column(alloc, &mut columns, b"x", 4, &[])?;
    push_column(alloc, &mut columns, b"l", 10, &[4])?;
    push_column(alloc, &mut columns, b"y", 7, &[])?;
    write_tail(alloc, &[], &columns, 0).ok()
}

/// The front of that file's footer: the types of its rows, of `x`, of `l` and of its elements, and of `y`.
const LIST_TYPES: [u8; 37] = [
    0x22, 0x10, 0x08, 0x0C, 0x12, 0x03, 0x01, 0x02, 0x04, 0x1A, 0x01, 0x78, 0x1A, 0x01, 0x6C, 0x1A,
    0x01, 0x79, 0x22, 0x02, 0x08, 0x04, 0x22, 0x05, 0x08, 0x0A, 0x12, 0x01, 0x03, 0x22, 0x02, 0x08,
    0x04, 0x22, 0x02, 0x08, 0x07,
];

fn types_are_written(alloc: Global) -> Option<bool> {
    let bytes = file_of_lists(alloc)?;
    Some(bytes.as_slice().starts_with(&LIST_TYPES))
}

#[test]
fn types_stand_in_order(rt: HostRuntime) {
    assert!(rt; types_are_written(rt.alloc()) == Some(true));
}

/// The tail of a file.
fn tail_of(alloc: Global, bytes: &[u8]) -> Option<Tail> {
    let mut store = OneFile::new(alloc, bytes, usize::MAX);
    let file = store.file();
    let mut reader = StoreReader::<RealWorld, _>::new(&mut store);
    read_tail(alloc, &mut reader, file).ok()
}

/// The columns, and the number and the kind of the type of each: the list's child stands between.
const TYPES: [(&str, (u32, u64)); 3] = [("x", (1, 4)), ("l", (2, 10)), ("y", (4, 7))];

/// Whether a tail has these columns.
fn has_types(tail: &Tail) -> bool {
    for (name, found) in &TYPES {
        match column_named(tail, name) {
            Some(column) if (column.number, column.kind) == *found => {}
            _ => return false,
        }
    }
    true
}

fn types_are_read(alloc: Global) -> Option<bool> {
    let bytes = file_of_lists(alloc)?;
    Some(has_types(&tail_of(alloc, &bytes)?))
}

#[test]
fn columns_are_read_back(rt: HostRuntime) {
    assert!(rt; types_are_read(rt.alloc()) == Some(true));
}
