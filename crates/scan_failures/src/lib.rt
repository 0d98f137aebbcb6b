//! What becomes of the faults and of the answers that end a scan.
#![tactic(auto)]

ghost use Rattle.std.specs.Prelude.{◌≡◌};
ghost use Rattle.fragment_meaning.specs.ScanOutcome.{answered};
ghost use Rattle.scan_failures.specs.Faults.{broken_failure as failure_of_rows, footer_failure as failure_of_footer};
ghost use Rattle.scan_failures.specs.Faults.{tail_outcome as outcome_of_tail};

use fragment_folds::Overflow;
use fragment_outcome::{Answer, Failure, Outcome};
use orc_rows::RowsFault;
use orc_tail::TailFault;
use outside::NoMemory;

/// What becomes of a fault of a file's tail: a compression is a failure of its own, a failed read is one, and want of memory is no
/// outcome.
pub fn tail_outcome(fault: TailFault) -> Result<Outcome, NoMemory>
    ensures { result ≡ outcome_of_tail fault }
{
    match fault {
        TailFault::Compressed(kind) => Ok(Outcome::Failure(Failure::Compressed(kind))),
        TailFault::Read(_) => Ok(Outcome::Failure(Failure::ReadFault)),
        TailFault::NoMemory => Err(NoMemory),
        fault => Ok(Outcome::Failure(Failure::BrokenTail(fault))),
    }
}

/// What becomes of a fault of the footer of the stripe of that number.
fn footer_failure(stripe: u32, fault: TailFault) -> Failure
    ensures { result ≡ failure_of_footer stripe fault }
{
    match fault {
        TailFault::Compressed(kind) => Failure::Compressed(kind),
        fault => Failure::BrokenFooter { stripe, fault },
    }
}

/// What becomes of rows that break: the failure names the stripe, and at a column that column.
pub fn broken_failure(fault: RowsFault) -> Failure
    ensures { result ≡ failure_of_rows fault }
{
    match fault {
        RowsFault::BrokenFooter { stripe, fault } => footer_failure(stripe, fault),
        RowsFault::BrokenColumn {
            stripe,
            column,
            fault,
        } => Failure::BrokenColumn {
            stripe,
            column,
            fault,
        },
    }
}

/// What becomes of a fold that has ended: its answer, or an overflow of its total.
pub fn answer_outcome(answer: Result<Answer, Overflow>) -> Outcome
    ensures { result ≡ answered answer }
{
    match answer {
        Ok(answer) => Outcome::Answer(answer),
        Err(Overflow) => Outcome::Failure(Failure::Overflow),
    }
}
