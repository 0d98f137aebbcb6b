//! Laws of plans and their outcomes, as contracts of functions that do nothing.
ghost use Rattle.plan_run.specs.Laws.{PlansAreShort, QuietRunsMeanThePlan};

/// A plan that was read has at most 1,000 fragments.
pub fn plans_are_short()
    ensures { PlansAreShort }
{}

/// Where no read failed, a run of a plan gives what the plan means.
pub fn quiet_runs_mean_the_plan()
    ensures { QuietRunsMeanThePlan }
{}
