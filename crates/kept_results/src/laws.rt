//! What holds of the shapes of a plan's fragments, as contracts of functions that do nothing.
ghost use Rattle.kept_results.specs.Laws.{ShapesByWork};

/// The shape of a plan's fragment is that of its work: what its scan makes, or that of the first source of its merge.
pub fn shapes_are_by_work()
    ensures { ShapesByWork }
{}
