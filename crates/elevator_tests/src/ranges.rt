//! The reads that a store notes, against those that are wanted.
use crate::one_file::OneFile;
use ledgers::CacheTotals;

/// Whether a word has that place and that length, with a plus between them.
fn is_range(word: &str, at: u64, len: usize) -> bool {
    match word.split_once('+') {
        Some((first, count)) => {
            first.parse::<u64>() == Ok(at) && count.parse::<usize>() == Ok(len)
        }
        None => false,
    }
}

/// Whether the store noted the reads of a text from that word on, up to another word, in their order.
pub fn are_reads(store: &OneFile<'_>, text: &str, from: usize, to: usize) -> bool {
    let mut words = text.split_whitespace().take(to).skip(from);
    for (at, len) in &store.reads {
        let Some(word) = words.next() else {
            return false;
        };
        if !is_range(word, *at, *len) {
            return false;
        }
    }
    words.next().is_none()
}

/// Whether so many ranges were hits, so many were filled, so many were read past the cache, and so many buffers were evicted.
pub fn are_counts(totals: &CacheTotals, wanted: &[u64; 4]) -> bool {
    totals.hit == wanted[0]
        && totals.filled == wanted[1]
        && totals.bypass == wanted[2]
        && totals.evicted == wanted[3]
        && totals.moved == 0
}
