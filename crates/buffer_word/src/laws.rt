//! What the pool's changes of a state word do to the state in it.
//!
//! No function here does anything: each contract is a law, for all counts, orders and places that fit. The
//! sums wrap at 64 bits, as those of an atomic word do. A law says too that no field runs into the next one.

ghost use Rattle.buffer_word.specs.Changes.{ReleasedIsEight, OpenedWord, PublishAdds15, BidAdds16, TakeBackSubtracts16};
ghost use Rattle.buffer_word.specs.Changes.{EvictAdds4, MoveAdds2, CancelSubtracts2, WordTellsState, WordTellsKey};

/// The word of a released header without a count is 8.
pub fn released_is_eight()
    ensures { ReleasedIsEight }
{}

/// The word that opens a header is the one of a new buffer without a count.
pub fn opened_word()
    ensures { OpenedWord }
{}

/// Adding 15 to the word of a new buffer makes it live, with one count more.
pub fn publish_adds_15()
    ensures { PublishAdds15 }
{}

/// Adding 16 is one count more, whatever the mode.
pub fn bid_adds_16()
    ensures { BidAdds16 }
{}

/// Subtracting 16 is one count less, whatever the mode.
pub fn take_back_subtracts_16()
    ensures { TakeBackSubtracts16 }
{}

/// Adding 4 to the word of a live buffer makes it evicted.
pub fn evict_adds_4()
    ensures { EvictAdds4 }
{}

/// Adding 2 to the word of a live buffer makes it moving.
pub fn move_adds_2()
    ensures { MoveAdds2 }
{}

/// Subtracting 2 from the word of a moving buffer makes it live where it was.
pub fn cancel_subtracts_2()
    ensures { CancelSubtracts2 }
{}

/// Two states that can be packed have two words.
pub fn word_tells_state()
    ensures { WordTellsState }
{}

/// Two keys that can be packed have two words.
pub fn word_tells_key()
    ensures { WordTellsKey }
{}
