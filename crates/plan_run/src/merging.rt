//! The outcome of a merge, by the outcomes of its sources.
ghost use Rattle.std.specs.Prelude.{◌≡◌, [], ◌<◌, ◌+◌, ◌^◌, IfOk, option_map, slice_get, length, Ok};
ghost use Rattle.fragment_meaning.specs.PlanOutcomes.{answers_of, merge_outcome};
ghost use Rattle.plan_run.specs.Merges.{answer_in, merged_on};

use fragment_folds::Merge;
use fragment_outcome::{Answer, Failure, Outcome, Table};
use outside::NoMemory;
use std::alloc::Global;

/// The answer of the fragment of that number, where it has one.
fn answer_at(outcomes: &[Outcome], number: u32) -> Option<&Answer>
    ensures { option_map (λ answer. answer.now) result ≡ answer_in (slice_get outcomes.now number) }
{
    match outcomes.get(number as usize) {
        Some(Outcome::Answer(answer)) => Some(answer),
        Some(Outcome::Failure(_)) | None => None,
    }
}

/// The outcome of a merge that has all answers.
fn ended(merge: Merge) -> Outcome
    ensures { result ≡ merged_on merge (Ok []) }
{
    match merge.finish() {
        Ok(answer) => Outcome::Answer(answer),
        Err(_) => Outcome::Failure(Failure::Overflow),
    }
}

/// The outcome of a merge that goes on by these sources.
fn merge_on(
    alloc: Global,
    merge: Merge,
    outcomes: &[Outcome],
    sources: &[u32],
) -> Result<Outcome, NoMemory>
    requires { merge.answers + length sources.now < 2 ^ 63 }
    ensures { IfOk result (λ o. o ≡ merged_on merge (answers_of outcomes.now sources.now)) }
{
    let mut merge = merge;
    for source in sources {
        let Some(answer) = answer_at(outcomes, *source) else {
            return Ok(Outcome::Failure(Failure::SourceFailed(*source)));
        };
        merge.add(alloc, answer)?;
    }
    Ok(ended(merge))
}

/// The outcome of a merge of these sources, in their order: that the first of them without an answer failed, or their answers
/// merged.
///
/// Refuses only for want of memory.
pub(crate) fn merge_of(
    alloc: Global,
    outcomes: &[Outcome],
    sources: &[u32],
) -> Result<Outcome, NoMemory>
    ensures { IfOk result (λ o. o ≡ merge_outcome (answers_of outcomes.now sources.now)) }
{
    let Some((first, others)) = sources.split_first() else {
        return Ok(Outcome::Answer(Answer::Rows(Table::new(Vec::new(alloc)))));
    };
    let Some(answer) = answer_at(outcomes, *first) else {
        return Ok(Outcome::Failure(Failure::SourceFailed(*first)));
    };
    let merge = Merge::new(alloc, answer)?;
    merge_on(alloc, merge, outcomes, others)
}
