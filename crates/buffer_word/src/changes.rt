// The two changes of a state word whose number isn't a constant. Each is added, and wraps at 64 bits.
ghost use Rattle.std.specs.Prelude.{◌^◌, ◌<◌};
ghost use Rattle.buffer_word.specs.Changes.{Releases, Settles};

const ORDER_UNIT: u64 = 1 << 20;

const PLACE_UNIT: u64 = 1 << 24;

/// What is added to the word of an evicted buffer, wrapping at 64 bits, to release its header.
///
/// `order` and `place` are those of the buffer's block. The count stays, also one that others add meanwhile.
///
/// Source: this project's own format.
pub fn release_step(order: u32, place: u32) -> u64
    requires order { order < 2 ^ 4 }
    requires place { place < 2 ^ 20 }
    ensures { Releases order place result }
{
    4u64.wrapping_sub(u64::from(order) * ORDER_UNIT + u64::from(place) * PLACE_UNIT)
}

/// What is added to the word of a moving buffer, wrapping at 64 bits, to make it live at its target.
///
/// `place` is where its block begins, and `target` where the block that it was copied to begins. The count
/// stays, also one that others add meanwhile.
///
/// Source: this project's own format.
pub fn settle_step(place: u32, target: u32) -> u64
    requires place { place < 2 ^ 20 }
    requires target { target < 2 ^ 20 }
    ensures { Settles place target result }
{
    (u64::from(target) * PLACE_UNIT).wrapping_sub(u64::from(place) * PLACE_UNIT + 2)
}
