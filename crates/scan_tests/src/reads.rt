//! Which ranges of a file a scan reads, and a read that fails.
use crate::files::TWO_NAMES;
use crate::one_scan::scanned;
use std::alloc::Global;
use test_stores::{FIVE_KINDS, LONG_STRIPES, OneFile};

/// A file, a scan of it, and its reads: the end, the file's footer, and for each stripe its footer and the streams of each column, by
/// ascending numbers and each once. A scan without a column reads no footer of a stripe, and one whose column is missing reads none.
const READS: [(&str, &str, &[(u64, usize)]); 5] = [
    (
        FIVE_KINDS,
        "r rows t,b from t.orc where b = true",
        &[
            (166, 256),
            (320, 88),
            (54, 142),
            (3, 2),
            (5, 2),
            (33, 2),
            (35, 6),
            (41, 3),
            (224, 96),
            (196, 2),
            (210, 3),
            (213, 4),
        ],
    ),
    (FIVE_KINDS, "n count from t.orc", &[(166, 256), (320, 88)]),
    (
        FIVE_KINDS,
        "r rows b,zz from t.orc",
        &[(166, 256), (320, 88)],
    ),
    (
        TWO_NAMES,
        "r rows y,x from t.orc",
        &[(0, 67), (23, 30), (7, 16), (3, 4)],
    ),
    (
        LONG_STRIPES,
        "r rows d,n from t.orc where n = 0",
        &[
            (0, 226),
            (164, 48),
            (34, 52),
            (3, 14),
            (17, 4),
            (21, 8),
            (29, 3),
            (32, 2),
            (118, 46),
            (86, 15),
            (101, 12),
            (113, 3),
            (116, 2),
        ],
    ),
];

/// Whether the first so many of these reads, or all, are those of a scan of which no more succeed, and that ends by a read fault if there
/// are more.
fn reads_up_to(
    alloc: Global,
    file: &[u8],
    plan: &str,
    reads: &[(u64, usize)],
    most: usize,
) -> bool {
    let mut store = OneFile::new(alloc, file, most);
    let Some(sink) = scanned(alloc, &mut store, plan) else {
        return false;
    };
    let Some(text) = sink.written() else {
        return false;
    };
    let failed = text.ends_with(b" failed read fault\n");
    failed == (most < reads.len())
        && Some(store.reads.as_slice()) == reads.get(..most.min(reads.len()))
}

/// Whether they are for each count of reads that succeed. At the end all of them do, and one more would be seen.
fn file_is_read(alloc: Global, file: &[u8], plan: &str, reads: &[(u64, usize)]) -> bool {
    for most in 0..reads.len() {
        if !reads_up_to(alloc, file, plan, reads, most) {
            return false;
        }
    }
    reads_up_to(alloc, file, plan, reads, usize::MAX)
}

fn holds(alloc: Global, digits: &str, plan: &str, reads: &[(u64, usize)]) -> bool {
    match hex::decode(alloc, digits) {
        Ok(file) => file_is_read(alloc, file.as_slice(), plan, reads),
        Err(_) => false,
    }
}

fn all_read(alloc: Global) -> bool {
    for (digits, plan, reads) in &READS {
        if !holds(alloc, digits, plan, reads) {
            return false;
        }
    }
    true
}

#[test]
fn each_range_is_read_once_until_a_read_fails(rt: HostRuntime) {
    assert!(rt; all_read(rt.alloc()));
}
