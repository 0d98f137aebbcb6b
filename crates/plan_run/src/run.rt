//! The run of a plan.
ghost use Rattle.std.specs.Prelude.{◌≡◌, ◌<◌, ◌≤◌, [], ◌∷◌, ◌++◌, Ok, IfOk, length};
ghost use Rattle.outside.specs.Cause.{Cause};
ghost use Rattle.fragment_plan.specs.Bounds.{AllInBounds};
ghost use Rattle.plan_run.specs.Run.{HasRun, read_fault};
ghost use Rattle.plan_run.specs.Scanned.{AreSteps, IsStep};
ghost use Rattle.plan_run.specs.Steps.{IsRun};
ghost use Rattle.plan_run.specs.Words.{HasWords};

use crate::merging::merge_of;
use crate::outcomes::Outcomes;
use crate::scanner::Scanner;
use fragment_outcome::Outcome;
use fragment_plan::{Plan, Work};
use outside::{NoMemory, World};
use std::alloc::Global;

/// How many fragments a plan has: at most 1,000.
fn fragment_count(plan: &Plan) -> u32
    ensures count { result ≡ length plan.now }
    ensures bounds { AllInBounds plan.now }
{
    plan.fragments().len() as u32
}

/// The outcome of a fragment, by the outcomes of those before it.
fn run_fragment<W: World, R: Scanner<W>>(
    alloc: Global,
    plan: &Plan,
    number: u32,
    before: &[Outcome],
    scanner: &mut R,
) -> Result<Outcome, NoMemory>
    requires in_plan { number < length plan.now }
    ensures ran { IfOk result (IsRun W.files plan.now number before.now) }
    ensures worded { IfOk result (HasWords (length plan.now)) }
    ensures same { R.same scanner.old scanner.new }
    ensures step { IfOk result (λ o. IsStep R.scanned plan.now number o scanner.old scanner.new) }
    ensures cause { Cause (R.fault_count scanner.old) (R.fault_count scanner.new) (result ≡ Ok read_fault) }
{
    match &plan.fragments()[number as usize].work {
        Work::Scan(_) => scanner.scan(alloc, plan, number),
        Work::Merge(sources) => merge_of(alloc, before, sources.as_slice()),
    }
}

/// Outcomes with one more. Refuses only for want of memory.
fn with_outcome(outcomes: Vec<Outcome>, outcome: Outcome) -> Result<Vec<Outcome>, NoMemory>
    ensures { IfOk result (λ new. new.items ≡ outcomes.items ++ outcome ∷ []) }
{
    let mut outcomes = outcomes;
    match outcomes.push(outcome) {
        Ok(()) => Ok(outcomes),
        Err(_) => Err(NoMemory),
    }
}

/// Runs a plan: its scans by the scanner, and its merges by the outcomes of their sources.
///
/// Where the world tells its files, the outcomes are those of the plan's fragments, where just the scans that end in a read fault
/// weren't read; and there are at most as many of these as the scanner's count of faults rose by. The scanner scanned for each fragment
/// that is a scan, in plan order, and nothing else. Refuses only for want of memory.
pub fn run_plan<W: World, R: Scanner<W>>(
    alloc: Global,
    plan: &Plan,
    scanner: &mut R,
) -> Result<Outcomes, NoMemory>
    ensures run { IfOk result (HasRun W.files (R.fault_count scanner.old) (R.fault_count scanner.new) plan.now) }
    ensures later { R.fault_count scanner.old ≤ R.fault_count scanner.new }
    ensures same { R.same scanner.old scanner.new }
    ensures steps { IfOk result (λ outcomes. AreSteps R.scanned plan.now 0 outcomes scanner.old scanner.new) }
{
    let count = fragment_count(plan);
    let mut outcomes = Vec::new(alloc);
    for number in 0..count {
        let outcome = run_fragment(alloc, plan, number, outcomes.as_slice(), scanner)?;
        outcomes = with_outcome(outcomes, outcome)?;
    }
    Ok(Outcomes::new(outcomes))
}
