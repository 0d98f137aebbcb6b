//! What the definitions say of all policies. No function here does anything: each contract is a law.

ghost use Rattle.lrfu_policy.specs.Laws.{ForgettingAddsNone, NoneBetween, RanksAreOrdered, VictimIsOne, VictimsRunOut, WorkedEntries};

/// The order of ranks is total, and two ranks that tie are of one header.
pub fn ranks_are_ordered()
    ensures { RanksAreOrdered }
{}

/// Of a range of headers there is one least rank above a given one, or none.
pub fn victim_is_one()
    ensures { VictimIsOne }
{}

/// Between a rank and the next victim after it there is no other rank: a walk passes over none.
pub fn none_between()
    ensures { NoneBetween }
{}

/// A walk from victim to victim ends: each leaves fewer ranks above it, and forgetting entries adds none.
pub fn walk_ends()
    ensures falls { VictimsRunOut }
    ensures forgets { ForgettingAddsNone }
{}

/// The entries after two syncs: a worked example of the definition.
pub fn worked_entries()
    ensures { WorkedEntries }
{}
