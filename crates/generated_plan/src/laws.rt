//! What ties the plan's text to its fragments. The law is a call that does nothing.
ghost use Rattle.generated_plan.specs.Laws.{GeneratedPlansAreRead};

use plan_text::laws::plans_are_read;

/// The plan over a generated file is in the grammar, with the fragments of `specs/Fragments.antt`.
pub fn generated_plans_are_read()
    ensures { GeneratedPlansAreRead }
{
    plans_are_read();
}
