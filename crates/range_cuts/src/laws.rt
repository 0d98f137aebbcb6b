//! The laws of cuts, as functions that do nothing.
ghost use Rattle.range_cuts.specs.Laws.{AreGotInParts, BeginBelow, JoinToTheRange};

/// The cuts of a range, one after the other, are the range.
pub fn cuts_join()
    ensures { JoinToTheRange }
{}

/// Of a stream's cuts, so many begin below a number of its bytes.
pub fn cuts_begin()
    ensures { BeginBelow }
{}

/// The cuts that begin below a number of bytes, and then those that begin below a greater one, are the latter.
pub fn cuts_go_on()
    ensures { AreGotInParts }
{}
