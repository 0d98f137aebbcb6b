//! Laws of layouts, as contracts of functions that do nothing.
ghost use Rattle.orc_streams.specs.Laws.{PlansAreApart, LayoutsEndBy, EndLater};

/// The columns of two indices have no stream in common.
pub fn plans_are_apart()
    ensures { PlansAreApart }
{}

/// Where the streams of a stripe's footer follow each other up to an offset, those of a column end there at most, and so at every
/// offset behind it: a column's streams lie in its file where the stripe does.
pub fn layouts_end_in_the_stripe()
    ensures end { LayoutsEndBy }
    ensures later { EndLater }
{}
