//! What masks and answers mean for the bits of a word.
//!
//! No function here does anything: each contract is a law, for arenas of any size and for all orders.

ghost use Rattle.buddy_arena.specs.Laws.{AroundIsBlock, BlockInArena, CoversInArena, BlockHasSmaller};
ghost use Rattle.buddy_arena.specs.Laws.{BuddyIsClearBlock, BuddyIsAnswer, OneWindow, MaskTestsClear, SettingTakes};
ghost use Rattle.buddy_arena.specs.Laws.{ClearingGives, MaskCountsTaken, JoinedBits, WorkedAnswers};

/// In an arena of whole blocks of an order, the block around each place is a block. So one can be shown to `mask`.
pub fn around_is_block()
    ensures { AroundIsBlock }
{}

/// Where a place is counted over all arenas, a block up to order 6 is a block of the place's own arena.
pub fn block_in_arena()
    ensures { BlockInArena }
{}

/// Such a block covers places of its own arena alone, the same as there.
pub fn covers_in_arena()
    ensures { CoversInArena }
{}

/// A block is, from its place on, a block of each smaller order too.
pub fn block_has_smaller()
    ensures { BlockHasSmaller }
{}

/// What `find` answers is a clear block of the order that was asked for.
pub fn buddy_is_clear_block()
    ensures { BuddyIsClearBlock }
{}

/// The answer of `find` by its definition is the one that its function computes, and no other.
pub fn buddy_is_answer()
    ensures { BuddyIsAnswer }
{}

/// There is one window at most.
pub fn one_window()
    ensures { OneWindow }
{}

/// A word and a block's mask share no bit exactly where the block is clear.
pub fn mask_tests_clear()
    ensures { MaskTestsClear }
{}

/// To set the mask of a clear block takes the block's places, and no others.
pub fn setting_takes()
    ensures { SettingTakes }
{}

/// To clear the mask of a block gives the block's places back, and no others.
pub fn clearing_gives()
    ensures { ClearingGives }
{}

/// A word and a block's mask share as many bits as the block has taken places.
pub fn mask_counts_taken()
    ensures { MaskCountsTaken }
{}

/// Bit p of several words is bit p % 64 of word p / 64.
pub fn joined_bits()
    ensures { JoinedBits }
{}

/// The answers for one word: a test of the definition.
pub fn worked_answers()
    ensures { WorkedAnswers }
{}
