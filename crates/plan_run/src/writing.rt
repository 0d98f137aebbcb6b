//! Writing the results of a plan.
ghost use Rattle.std.specs.Prelude.{◌≡◌, ◌≤◌, ℕ, length, take, OnOk, OnErr};
ghost use Rattle.outside.specs.Cause.{HasCause};
ghost use Rattle.outside.specs.Told.{Extended};
ghost use Rattle.plan_run.specs.Output.{results_text};

use fragment_outcome::{Outcome, write_result};
use fragment_plan::Plan;
use outside::{Failed, Sink};

/// Writes the results of a plan's fragments, in plan order, each in pieces of some KiB. It takes no memory.
///
/// `Failed` comes only where the sink's faults rose, and a front of the text was written.
pub fn write_results<K: Sink>(plan: &Plan, outcomes: &[Outcome], out: &mut K) -> Result<(), Failed>
    requires { length outcomes.now ≤ 4294967295 }
    ensures written { OnOk result (Extended (K.content out.old) (K.content out.new) (results_text plan.now outcomes.now)) }
    ensures front { OnErr result ((n : ℕ) × (n ≤ length (results_text plan.now outcomes.now))
        × Extended (K.content out.old) (K.content out.new) (take n (results_text plan.now outcomes.now))) }
    ensures cause { HasCause (K.fault_count out.old) (K.fault_count out.new) result }
{
    for (number, outcome) in outcomes.iter().enumerate() {
        write_result(plan, number as u32, outcome, out)?;
    }
    Ok(())
}
