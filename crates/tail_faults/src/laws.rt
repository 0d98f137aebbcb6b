//! Laws of the faults of tails and of stripe footers, as contracts of functions that do nothing.
ghost use Rattle.tail_faults.specs.Laws.{StripeFootersHaveThreeFaults, TailsHaveSevenFaults};

/// A stripe's footer is refused by one of its three conditions: never by one of a tail's alone, as a compression, and never by a
/// failed read or for want of memory.
pub fn stripe_footers_have_three_faults()
    ensures { StripeFootersHaveThreeFaults }
{}

/// A tail is refused by one of its nine conditions, which have seven faults: never by one of a stripe's footer alone, and never by
/// a failed read or for want of memory.
pub fn tails_have_seven_faults()
    ensures { TailsHaveSevenFaults }
{}
