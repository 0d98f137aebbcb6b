//! What is written once it is whole.
ghost use Rattle.std.specs.Prelude.{◌≡◌, ◌≤◌, length};
ghost use Rattle.std.specs.List.{list_any};
ghost use Rattle.data_path.specs.RunText.{run_text};
ghost use Rattle.data_path.specs.Statuses.{is_failure as is_failed, status_of};
ghost use Rattle.data_path.specs.Steps.{Written};

use crate::status::Status;
use fragment_outcome::Outcome;
use fragment_plan::Plan;
use ledgers::{CacheTotals, write_cache};
use outside::Sink;
use plan_run::write_results;

/// Writes a text, and answers its status, or that the write failed.
pub fn written<K: Sink>(out: &mut K, text: &[u8], status: Status) -> Status
    ensures { Written (K.content out.old) (K.content out.new) (K.fault_count out.old) (K.fault_count out.new)
        text.now status result }
{
    match out.write(text) {
        Ok(()) => status,
        Err(_) => Status::WriteFault,
    }
}

/// Whether the fragment has no answer.
fn is_failure(outcome: &Outcome) -> bool
    ensures { result ≡ is_failed outcome.now }
{
    match outcome {
        Outcome::Answer(_) => false,
        Outcome::Failure(_) => true,
    }
}

/// Whether some fragment has no answer.
fn any_failed(outcomes: &[Outcome]) -> bool
    ensures { result ≡ list_any is_failed outcomes.now }
{
    outcomes.iter().any(|outcome| is_failure(outcome))
}

/// The status after these results.
fn status_after(outcomes: &[Outcome]) -> Status
    ensures { result ≡ status_of outcomes.now }
{
    if any_failed(outcomes) {
        Status::SomeFailed
    } else {
        Status::Done
    }
}

/// Writes the results of a plan's fragments and then the line of the cache, and answers the results' status, or that a write failed.
pub(crate) fn run_written<K: Sink>(
    plan: &Plan,
    outcomes: &[Outcome],
    totals: &CacheTotals,
    out: &mut K,
) -> Status
    requires { length outcomes.now ≤ 4294967295 }
    ensures { Written (K.content out.old) (K.content out.new) (K.fault_count out.old) (K.fault_count out.new)
        (run_text plan.now outcomes.now totals.now) (status_of outcomes.now) result }
{
    match write_results(plan, outcomes, out) {
        Ok(()) => match write_cache(totals, out) {
            Ok(()) => status_after(outcomes),
            Err(_) => Status::WriteFault,
        },
        Err(_) => Status::WriteFault,
    }
}
