//! What holds of a seat that looks keys up. No function here does anything: each contract is a law.

ghost use Rattle.cache_lookup.specs.Laws.{HoldsAreLetGo};

/// A seat that takes back the count of a hold which it had besides has again what it had.
pub fn holds_are_let_go()
    ensures { HoldsAreLetGo }
{}
