//! A whole plan.

ghost use Rattle.std.specs.Prelude.{◌≡◌};
ghost use Rattle.fragment_plan.specs.Plan.{Answers, plan_of};

use crate::error::PlanError;
use crate::fragments::Fragments;
use crate::plan::Plan;
use plan_words::{PlanKind, Stop, is_comment, split_lines, trim_return};
use std::alloc::Global;

/// The most bytes of a plan.
const MOST_BYTES: usize = 1_048_576;

/// Reads a plan, line by line. Its time grows with the bytes.
///
/// Answers `Fault` exactly where the bytes are no plan, with the first bad line, counted from 1, and the first
/// fault in it; a plan of more than 1,048,576 bytes is too long, in line 0, before all others. Answers `NoMemory`
/// only where memory was refused. A call that refuses leaves nothing.
#[tactic(auto, unfolding(crate::specs::Plan::plan_of))]
pub fn read_plan(alloc: Global, bytes: &[u8]) -> Result<Plan, PlanError>
    ensures { Answers result (plan_of bytes.now) }
{
    if bytes.len() > MOST_BYTES {
        return Err(PlanError::Fault {
            line: 0,
            kind: PlanKind::TooLong,
        });
    }
    let mut lines = split_lines(bytes);
    let mut fragments = Fragments::new(alloc);
    let mut number: u32 = 0;
    while let Some(line) = lines.next() {
        number += 1;
        let text = trim_return(line);
        if is_comment(text) {
            continue;
        }
        fragments = match fragments.with_line(alloc, text) {
            Ok(fragments) => fragments,
            Err(Stop::Fault(kind)) => return Err(PlanError::Fault { line: number, kind }),
            Err(Stop::NoMemory) => return Err(PlanError::NoMemory),
        };
    }
    match Plan::new(fragments.into_vec()) {
        Ok(plan) => Ok(plan),
        Err(_) => Err(PlanError::NoMemory),
    }
}
