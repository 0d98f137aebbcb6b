//! What ties reading to writing. Each law is a call that does nothing.

ghost use Rattle.plan_text.specs.Laws.{LinesAreRead, PlansAreRead};

/// A plain line is read as its fragment.
pub fn lines_are_read()
    ensures { LinesAreRead }
{}

/// A plan that is written plainly is read as itself.
pub fn plans_are_read()
    ensures { PlansAreRead }
{}
