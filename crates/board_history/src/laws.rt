//! What holds of the order and of every legal history. Each law is a call that does nothing.

ghost use Rattle.board_history.specs.Laws.{NoneBeforeItself, BeforeGoesOn, OneIsBefore, FirstIsOne, LastIsOne};
ghost use Rattle.board_history.specs.Laws.{StartedHasEndedOrRuns, EndsOnce, NumbersCountStops};

/// The order of the queue is strict and total, so the first and the last of the waiting are one fragment each.
pub fn the_order_is_total()
    ensures irreflexive { NoneBeforeItself }
    ensures transitive { BeforeGoesOn }
    ensures total { OneIsBefore }
    ensures first { FirstIsOne }
    ensures last { LastIsOne }
{}

/// In a legal history each fragment ends at most once, and as many attempts were started as have ended or run.
pub fn fragments_end_once()
    ensures once { EndsOnce }
    ensures balance { StartedHasEndedOrRuns }
{}

/// The number of a fragment's current attempt is 1 more than its attempts that were stopped.
pub fn numbers_count_stops()
    ensures { NumbersCountStops }
{}
