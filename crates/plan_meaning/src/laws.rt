//! Laws of the outcomes of plans, as contracts of functions that do nothing.
ghost use Rattle.plan_meaning.specs.Laws.{PlansHaveOutcomes, OutcomesOfPlansAreOne};

use fragment_meaning::laws::a_scan_has_one_outcome;

/// Over the files of a run a plan has one list of outcomes, whichever of its scans weren't read.
pub fn a_plan_has_one_list_of_outcomes()
    ensures some { PlansHaveOutcomes }
    ensures one { OutcomesOfPlansAreOne }
{
    a_scan_has_one_outcome();
}
