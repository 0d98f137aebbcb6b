//! A tournament over the headers: the winner of a node is the lesser of its two children's, and the leaves are the entries.
//!
//! With n headers the children of node j are 2j and 2j + 1, the root is 1, and the leaf of header h is n + h. So the least
//! of all stands at the root, and an entry that changes changes only the winners above its leaf.

ghost use Rattle.std.specs.Prelude.{◌≡◌, ◌↔◌, ℕ, ◌+◌, ◌*◌, ◌/◌, ◌<◌, ◌≤◌, length, slice_set, IsTrue};
ghost use Rattle.lrfu_policy.specs.Rank.{rank_at, lesser_of, is_above, kept_above};
ghost use Rattle.lrfu_policy.specs.Victim.{IsLeast, Among};
ghost use Rattle.lrfu_policy.specs.Tournament.{node_in, AreWinnersBut, Under};

use crate::entry::Entry;
use crate::rank::{Rank, cmp_ranks};

/// The rank of a header's entry.
fn rank_of(entries: &[Option<Entry>], header: u32) -> Option<Rank>
    requires { header < length entries.now }
    ensures { result ≡ rank_at entries.now header }
{
    match entries[header as usize] {
        None => None,
        Some(entry) => Some(Rank {
            s: entry.s,
            e: entry.e,
            last: entry.last,
            header,
        }),
    }
}

/// The lesser of two ranks, the first where both are the same.
fn lesser(left: Option<Rank>, right: Option<Rank>) -> Option<Rank>
    ensures { result ≡ lesser_of left right }
{
    match left {
        None => right,
        Some(a) => match right {
            None => Some(a),
            Some(b) => {
                if cmp_ranks(&a, &b).is_gt() {
                    Some(b)
                } else {
                    Some(a)
                }
            }
        },
    }
}

/// Whether two ranks are the same, or both are none.
fn is_same(left: Option<Rank>, right: Option<Rank>) -> bool
    ensures { IsTrue result ↔ (left ≡ right) }
{
    left == right
}

/// Whether a rank is above the given one, if one is given.
fn above(after: Option<Rank>, rank: Rank) -> bool
    ensures { result ≡ is_above after rank }
{
    match after {
        None => true,
        Some(given) => cmp_ranks(&given, &rank).is_lt(),
    }
}

/// The winner at a node, or a leaf's own rank.
fn node_rank(entries: &[Option<Entry>], winners: &[Option<Rank>], node: usize) -> Option<Rank>
    requires same { length winners.now ≡ length entries.now }
    requires fits { length entries.now < 4294967296 }
    requires within { node < length entries.now + length entries.now }
    ensures { result ≡ node_in entries.now winners.now node }
{
    if node < winners.len() {
        winners[node]
    } else {
        rank_of(entries, (node - winners.len()) as u32)
    }
}

/// Makes the winners right again after the entry of a header has changed: those of the nodes above it.
fn mend(entries: &[Option<Entry>], winners: &mut [Option<Rank>], header: u32)
    requires same { length winners.old ≡ length entries.now }
    requires fits { length entries.now < 4294967296 }
    requires within { header < length entries.now }
    requires tree { AreWinnersBut entries.now winners.old ((header + length entries.now) / 2) }
    ensures len { length winners.new ≡ length winners.old }
    ensures tree { AreWinnersBut entries.now winners.new 0 }
{
    let mut node = (header as usize + entries.len()) / 2;
    while node > 0 {
        let left = node_rank(entries, winners, 2 * node);
        let right = node_rank(entries, winners, 2 * node + 1);
        let winner = lesser(left, right);
        if is_same(winners[node], winner) {
            return;
        }
        winners[node] = winner;
        node /= 2;
    }
}

/// The least rank under a node that is above the given one.
pub(crate) fn least_above(
    entries: &[Option<Entry>],
    winners: &[Option<Rank>],
    node: usize,
    after: Option<Rank>,
) -> Option<Rank>
    requires same { length winners.now ≡ length entries.now }
    requires fits { length entries.now < 4294967296 }
    requires root { 0 < node }
    requires within { node < length entries.now + length entries.now }
    requires tree { AreWinnersBut entries.now winners.now 0 }
    ensures { IsLeast (Under (length entries.now) node) entries.now after result }
{
    match node_rank(entries, winners, node) {
        None => None,
        Some(rank) => {
            if above(after, rank) {
                Some(rank)
            } else if node < winners.len() {
                let left = least_above(entries, winners, 2 * node, after);
                let right = least_above(entries, winners, 2 * node + 1, after);
                lesser(left, right)
            } else {
                None
            }
        }
    }
}

/// Sets a header's entry.
pub(crate) fn put(
    entries: &mut [Option<Entry>],
    winners: &mut [Option<Rank>],
    header: u32,
    entry: Option<Entry>,
)
    requires same { length winners.old ≡ length entries.old }
    requires fits { length entries.old < 4294967296 }
    requires within { header < length entries.old }
    requires tree { AreWinnersBut entries.old winners.old 0 }
    ensures entries { entries.new ≡ slice_set entries.old header entry }
    ensures len { length winners.new ≡ length winners.old }
    ensures tree { AreWinnersBut entries.new winners.new 0 }
{
    entries[header as usize] = entry;
    mend(entries, winners, header);
}

/// A rank, where it is above the given one.
fn only_above(after: Option<Rank>, rank: Option<Rank>) -> Option<Rank>
    ensures { result ≡ kept_above after rank }
{
    match rank {
        None => None,
        Some(found) => {
            if above(after, found) {
                Some(found)
            } else {
                None
            }
        }
    }
}

/// The least rank above the given one among so many headers from the first on. Each is looked at.
pub(crate) fn least_among(
    entries: &[Option<Entry>],
    first: u32,
    count: u32,
    after: Option<Rank>,
) -> Option<Rank>
    requires within { first + count ≤ length entries.now }
    requires fits { length entries.now < 4294967296 }
    ensures { IsLeast (Among first count) entries.now after result }
{
    let mut least = None;
    for passed in 0..count {
        let rank = rank_of(entries, first + passed);
        least = lesser(least, only_above(after, rank));
    }
    least
}
