//! What holds of every pool, whoever makes its steps.
//!
//! No function here does anything: each contract is a law.

ghost use Rattle.pool_model.specs.Laws.{EveryRunIsLawful, OthersAreSpared, LawfulIsDisjoint, OwnersAreParts};

/// Every list of steps that each meet their needs, from the pool with no buffer and no grant, leads through lawful
/// pools alone. No step moves, evicts or grants a minimum block of a buffer that has a holder then, and each such
/// buffer stays live where it is, with its key and its cells.
pub fn every_run_is_lawful()
    ensures { EveryRunIsLawful }
{}

/// No two of the blocks, targets and grants of a lawful pool have a minimum block in common.
pub fn lawful_is_disjoint()
    ensures { LawfulIsDisjoint }
{}

/// The sum by which a pool is called lawful counts what has a minimum block: it is 0 exactly where no block, target or
/// grant has it, and at most 1 exactly where no two have it.
pub fn owners_are_parts()
    ensures { OwnersAreParts }
{}

/// No step from a lawful pool changes a buffer that another seat has for itself, takes another seat's grant away, or ends
/// another seat's pin: the seat still holds the buffer, which is live where it was, with its key and its cells.
pub fn others_are_spared()
    ensures { OthersAreSpared }
{}
