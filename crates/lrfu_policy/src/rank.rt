//! The order in which headers are evicted: by weight, then by the last touch, then by header.

ghost use Rattle.std.specs.Prelude.{◌≡◌, ◌*◌, ◌^◌};
ghost use Rattle.std.specs.Ordering.{nat_cmp};
ghost use Rattle.lrfu_policy.specs.Rank.{rank_cmp};

use std::cmp::Ordering;

/// Where a header stands in the order of eviction, by its entry.
///
/// The order is by the number `s * 2^e`, which isn't bounded, then by `last`, then by `header`; the least goes first.
#[derive(Clone, Copy, PartialEq, Eq)]
pub struct Rank {
    pub s: u64,
    pub e: u64,
    pub last: u64,
    pub header: u32,
}

/// Compares a number with another times a power of two, which may be beyond any machine word.
fn cmp_shifted(left: u64, right: u64, shift: u64) -> Ordering
    ensures { result ≡ nat_cmp left (right * 2 ^ shift) }
{
    if shift < 64 {
        let scaled = u128::from(right) << shift;
        u128::from(left).cmp(&scaled)
    } else if right == 0 {
        left.cmp(&0)
    } else {
        Ordering::Less
    }
}

/// Compares `a * 2^p` with `b * 2^q`. The smaller power is taken out of both.
fn cmp_scaled(a: u64, p: u64, b: u64, q: u64) -> Ordering
    ensures { result ≡ nat_cmp (a * 2 ^ p) (b * 2 ^ q) }
{
    if p <= q {
        cmp_shifted(a, b, q - p)
    } else {
        cmp_shifted(b, a, p - q).reverse()
    }
}

/// Compares two ranks.
pub(crate) fn cmp_ranks(a: &Rank, b: &Rank) -> Ordering
    ensures { result ≡ rank_cmp a.now b.now }
{
    cmp_scaled(a.s, a.e, b.s, b.e)
        .then(a.last.cmp(&b.last))
        .then(a.header.cmp(&b.header))
}
