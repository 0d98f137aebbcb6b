// Which blocks are clear and free, as sets of places in one word, and which free block serves an order.
ghost use Rattle.std.specs.Prelude.{◌≡◌, ℕ, ◌+◌, ◌<◌, ◌≤◌};
ghost use Rattle.buddy_arena.specs.Block.{IsBlock};
ghost use Rattle.buddy_arena.specs.Buddy.{IsClearBlock, IsFree, IsBuddyAnswer, buddy_answer};
ghost use Rattle.buddy_arena.specs.Sets.{IsSetOf};

use crate::blocks::{TOP_ORDER, places};

/// Where a block of the order can be had in an arena with this word: the lowest place of the smallest free
/// blocks that have the order or more.
///
/// The free blocks are the largest aligned blocks without a set bit. None exactly where no free block has the
/// order or more; so it is for each order above 6.
///
/// Source: this project's own; after the buddy system.
pub fn find(word: u64, order: u32) -> Option<u32>
    ensures answer { IsBuddyAnswer 64 word order result }
    ensures same { result ≡ buddy_answer 64 word order }
{
    if order > TOP_ORDER {
        return None;
    }
    let mut clear = clear_blocks(word, order);
    for size in order..TOP_ORDER {
        let larger = larger_blocks(clear, size);
        let free = free_blocks(clear, larger, size);
        if free != 0 {
            return Some(free.trailing_zeros());
        }
        clear = larger;
    }
    if clear == 0 { None } else { Some(0) }
}

/// The clear blocks of an order.
fn clear_blocks(word: u64, order: u32) -> u64
    requires { order ≤ 6 }
    ensures { IsSetOf result (λ p. IsClearBlock 64 word p order) }
{
    let mut clear = !word;
    for size in 0..order {
        clear = larger_blocks(clear, size);
    }
    clear
}

/// The clear blocks of the next order, from those of this one: two neighbours make one.
fn larger_blocks(clear: u64, order: u32) -> u64
    requires { order < 6 }
    ensures { (bits : ℕ) → IsSetOf clear (λ p. IsClearBlock 64 bits p order) → IsSetOf result (λ p. IsClearBlock 64 bits p (order + 1)) }
{
    clear & clear >> places(order) & aligned_places(order + 1)
}

/// The free blocks of an order, from the clear blocks of this order and the next: those that aren't a half of
/// a larger one.
fn free_blocks(clear: u64, larger: u64, order: u32) -> u64
    requires { order < 6 }
    ensures { (bits : ℕ) → IsSetOf clear (λ p. IsClearBlock 64 bits p order)
        → IsSetOf larger (λ p. IsClearBlock 64 bits p (order + 1)) → IsSetOf result (λ p. IsFree 64 bits p order) }
{
    clear & !(larger | larger << places(order))
}

/// The places at which a block of the order may begin.
fn aligned_places(order: u32) -> u64
    requires { order ≤ 6 }
    ensures { IsSetOf result (λ p. IsBlock 64 p order) }
{
    match order {
        0 => u64::MAX,
        1 => 0x5555_5555_5555_5555,
        2 => 0x1111_1111_1111_1111,
        3 => 0x0101_0101_0101_0101,
        4 => 0x0001_0001_0001_0001,
        5 => 0x0000_0001_0000_0001,
        _ => 1,
    }
}
