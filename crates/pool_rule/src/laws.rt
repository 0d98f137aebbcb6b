//! What the rule says of the pool for which words and views stand.
//!
//! No function here does anything: each contract is a law.

ghost use Rattle.pool_rule.specs.Laws.{APoolIsLawful, BuffersAreSaid, ClearBitsAreFree, KnownWordsStand, StateWordsUnpack};

/// The pool is lawful.
pub fn a_pool_is_lawful()
    ensures { APoolIsLawful }
{
    pool_model::laws::every_run_is_lawful();
}

/// Each state word unpacks, and its count is the number of seats that have a pin or a bid on the header: 64 at most.
pub fn state_words_unpack()
    ensures { StateWordsUnpack }
{
    pool_model::laws::every_run_is_lawful();
}

/// A bit of an arena's word is clear exactly where no block, target or grant has that minimum block.
pub fn clear_bits_are_free()
    ensures { ClearBitsAreFree }
{
    pool_model::laws::owners_are_parts();
}

/// A buffer's cells are the words at its block's place, its key is the one that the header's key word packs, its holders are
/// the seats that have a pin of the header, and its claimant is a seat that has a claim on it.
pub fn buffers_are_said()
    ensures { BuffersAreSaid }
{}

/// Where a step told that there was a pool, and the seat knew the words, those words and the seat's view stood for it.
pub fn known_words_stand()
    ensures { KnownWordsStand }
{}
