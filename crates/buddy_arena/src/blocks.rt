// Blocks alone: how many places one has, its bits in a word, and the order that a length needs.
ghost use Rattle.std.specs.Prelude.{◌≡◌, ℕ, ◌-◌, ◌*◌, ◌^◌, ◌<◌, ◌≤◌};
ghost use Rattle.buddy_arena.specs.Block.{IsBlock, IsMask};

/// The highest order: a block of it is the whole arena.
pub(crate) const TOP_ORDER: u32 = 6;

/// How many minimum blocks a block of the order has.
pub(crate) fn places(order: u32) -> u32
    requires { order ≤ 6 }
    ensures value { result ≡ 2 ^ order }
    ensures most { result ≤ 64 }
{
    1 << order
}

/// The bits of a block in the arena's word.
///
/// The place is within the arena, below 64 and a multiple of `2^order`; the order is at most 6.
///
/// Source: this project's own.
pub fn mask(place: u32, order: u32) -> u64
    requires { IsBlock 64 place order }
    ensures mask { IsMask result place order }
    ensures value { result ≡ (2 ^ 2 ^ order - 1) * 2 ^ place }
{
    u64::MAX >> (64 - places(order)) << place
}

/// The least order whose blocks hold `len` bytes: the least k with `min_block * 2^k >= len`.
///
/// Both are in bytes. It is at most 6 for a `len` of at most `64 * min_block`.
///
/// Source: this project's own.
pub fn order_for(len: u32, min_block: u32) -> u32
    requires { 0 < min_block }
    ensures holds { len ≤ min_block * 2 ^ result }
    ensures least { (k : ℕ) → len ≤ min_block * 2 ^ k → result ≤ k }
{
    let mut order = 0;
    let mut block = u64::from(min_block);
    while block < u64::from(len) {
        block *= 2;
        order += 1;
    }
    order
}
