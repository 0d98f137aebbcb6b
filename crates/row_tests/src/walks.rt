//! Walks over the rows of whole files.
ghost use Rattle.std.specs.Prelude.{◌≡◌, ◌≤◌, length};

use crate::kept_rows::{KeptRows, NULL};
use orc_columns::ColumnFault;
use orc_rows::RowsFault;
use orc_streams::{DirectReader, ReadColumn, StoredStreams};
use orc_tail::read_tail;
use orc_walk::{Stop, walk_stripes};
use outside::RealWorld;
use std::alloc::Global;
use test_stores::OneFile;

/// How a walk ended, where it wasn't for want of memory or by a failed read.
#[derive(Drop)]
enum End {
    Whole,
    Broken(RowsFault),
}

/// Walks over a file by these columns, and keeps what it gives.
fn walk(
    alloc: Global,
    store: &mut OneFile<'_>,
    columns: &[ReadColumn],
    kept: &mut KeptRows<'_>,
) -> Option<End>
    requires few { length columns.now ≤ 16 }
    requires same { kept.old.columns.now ≡ columns.now }
{
    let file = store.file();
    let mut streams = StoredStreams::new(alloc);
    let mut reader = DirectReader::<RealWorld, _>::new(store, &mut streams);
    let tail = read_tail(alloc, &mut reader, file).ok()?;
    let stripes = tail.stripes.as_slice();
    match walk_stripes(alloc, &mut reader, file, stripes, columns, kept) {
        Ok(()) => Some(End::Whole),
        Err(Stop::Fault(fault)) => Some(End::Broken(fault)),
        Err(_) => None,
    }
}

/// A column of whole numbers, and one of texts.
const NUMBERS: [ReadColumn; 1] = [ReadColumn { number: 1, kind: 3 }];

const TEXTS: [ReadColumn; 1] = [ReadColumn { number: 1, kind: 7 }];

/// Five INT rows, of which the second and the fifth are null: the streams and the stripe's footer, the file's footer, the postscript.
const WITH_NULLS: &str = "4F5243FFB0FD0203D8040A060800100118020A060801100118051202080012020800\
1A0A080310001807201828052208080C1201011A0178220208033005081C10002202000C280082F403034F524311";

/// Two stripes of three texts by a dictionary of two: what stands behind each stripe's DATA, and behind both stripes.
const DICTIONARY: &str = "4001C061620A060801100118030A060802100118030A06080310011802\
12020800120408031002";

const FILE_END: &str = "1A0A080310001808202228031A0A082D10001808202228032208080C1201011A0178\
220208073006082810002202000C280082F403034F524311";

/// The file whose first stripe has the entries 0, 1 and 0, and whose second stripe has this DATA.
fn two_stripes(alloc: Global, second: &str) -> Option<String> {
    format!(in alloc; "4F5243420210{DICTIONARY}{second}{DICTIONARY}{FILE_END}").ok()
}

/// What the file of these digits gives by these columns: the numbers, the reads, and how it ended.
fn walked(
    alloc: Global,
    digits: &str,
    columns: &[ReadColumn],
) -> Option<(Vec<i64>, Vec<(u64, usize)>, End)>
    requires { length columns.now ≤ 16 }
{
    let bytes = hex::decode(alloc, digits).ok()?;
    let mut store = OneFile::new(alloc, bytes.as_slice(), usize::MAX);
    let mut kept = KeptRows {
        columns,
        numbers: Vec::new(alloc),
    };
    let end = walk(alloc, &mut store, columns, &mut kept)?;
    Some((kept.numbers, store.reads, end))
}

/// Whether it gives just these numbers by these reads, to its end.
fn gives(
    alloc: Global,
    digits: &str,
    columns: &[ReadColumn],
    numbers: &[i64],
    reads: &[(u64, usize)],
) -> Option<bool>
    requires { length columns.now ≤ 16 }
{
    let (kept, made, end) = walked(alloc, digits, columns)?;
    let same = kept.as_slice() == numbers && made.as_slice() == reads;
    Some(same && matches!(end, End::Whole))
}

/// The reads of a file of two stripes whose second is refused: the tail; of each stripe its footer and its streams; and the second
/// stripe's streams once more, to judge them.
const REFUSED_READS: [(u64, usize); 13] = [
    (0, 145),
    (87, 40),
    (11, 34),
    (3, 3),
    (6, 3),
    (9, 2),
    (53, 34),
    (45, 3),
    (48, 3),
    (51, 2),
    (45, 3),
    (48, 3),
    (51, 2),
];

/// Whether it breaks at the column 1 of the stripe 1, by the number of an entry, and by these reads.
fn breaks_at_an_index(alloc: Global, digits: &str) -> Option<bool> {
    let (kept, made, end) = walked(alloc, digits, &TEXTS)?;
    let End::Broken(
        RowsFault::BrokenColumn {
            stripe: 1,
            column: 1,
            fault: ColumnFault::IndexOutOfDictionary,
        },
    ) = end
    else {
        return Some(false);
    };
    Some(kept.as_slice() == [97, 98, 97].as_slice() && made.as_slice() == REFUSED_READS.as_slice())
}

fn stripes_are_walked(alloc: Global) -> Option<bool> {
    let whole = two_stripes(alloc, "420210")?;
    let broken = two_stripes(alloc, "420218")?;
    let first = [(0, 145), (87, 40), (11, 34), (3, 3), (6, 3), (9, 2)];
    let numbers = [97, 98, 97, 97, 98, 97];
    let (_, made, _) = walked(alloc, &whole, &TEXTS)?;
    let same = gives(alloc, &whole, &TEXTS, &numbers, &made)? && made.starts_with(&first);
    Some(same && made.len() == 10 && breaks_at_an_index(alloc, &broken)?)
}

#[test]
fn the_least_stripe_that_fails_counts(rt: HostRuntime) {
    assert!(rt; stripes_are_walked(rt.alloc()) == Some(true));
}

#[test]
fn rows_are_given_by_their_ranges(rt: HostRuntime) {
    let numbers = [1, NULL, -2, 300, NULL];
    let reads = [(0, 80), (34, 28), (10, 24), (3, 2), (5, 5)];
    assert!(rt; gives(rt.alloc(), WITH_NULLS, &NUMBERS, &numbers, &reads) == Some(true));
    assert!(rt; gives(rt.alloc(), WITH_NULLS, &[], &[5], &reads[..2]) == Some(true));
}
