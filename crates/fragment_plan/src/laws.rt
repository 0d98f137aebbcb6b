//! What holds of the plan language. Each law is a call that does nothing.

ghost use Rattle.fragment_plan.specs.Laws.{PlansAreInBounds, APlanIsOne, AFaultIsOne, NeverBoth};

/// Columns of a plan that is read are at most 16, places lie among them, and fragments name earlier ones.
pub fn plans_are_in_bounds()
    ensures { PlansAreInBounds }
{}

/// Bytes determine a plan or a first fault, and never both.
pub fn a_plan_is_one()
    ensures plan { APlanIsOne }
    ensures fault { AFaultIsOne }
    ensures never_both { NeverBoth }
{}
