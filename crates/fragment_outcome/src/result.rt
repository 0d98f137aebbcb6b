//! The printed text of a fragment's outcome.
ghost use Rattle.std.specs.Prelude.{◌≡◌, ◌≤◌, ℕ, length, take, OnOk, OnErr};
ghost use Rattle.outside.specs.Cause.{HasCause};
ghost use Rattle.outside.specs.Told.{Extended};
ghost use Rattle.fragment_outcome.specs.Sent.{held_by, Wrote};
ghost use Rattle.fragment_outcome.specs.Text.{outcome_text, result_text};

use crate::causes::{name_at, put_cause};
use crate::lines::put_answer;
use crate::outcome::Outcome;
use crate::writer::Writer;
use fragment_plan::Plan;
use outside::{Failed, Sink};

/// Writes an outcome, behind the fragment's name.
fn put_outcome<K: Sink>(writer: &mut Writer, out: &mut K, plan: &Plan, outcome: &Outcome)
    ensures { Wrote (held_by writer.old) (K.content out.old) (K.fault_count out.old)
        (held_by writer.new) (K.content out.new) (K.fault_count out.new) (outcome_text plan.now outcome.now) }
{
    match outcome {
        Outcome::Answer(answer) => put_answer(writer, out, answer),
        Outcome::Failure(failure) => {
            writer.put(out, b" failed ");
            put_cause(writer, out, plan, failure);
            writer.put(out, b"\n");
        }
    }
}

/// Writes the lines of a fragment's outcome, in pieces of some KiB. It takes no memory.
///
/// The fragment, and the source of a `SourceFailed`, are fragments of the plan, by number; the name of another is no text. A fault
/// that has no words, as a failed read, is written as no text. `Failed` comes only where the sink's faults rose, and a front
/// of the text was written.
pub fn write_result<K: Sink>(
    plan: &Plan,
    fragment: u32,
    outcome: &Outcome,
    out: &mut K,
) -> Result<(), Failed>
    ensures written { OnOk result (Extended (K.content out.old) (K.content out.new) (result_text plan.now fragment outcome.now)) }
    ensures front { OnErr result ((n : ℕ) × (n ≤ length (result_text plan.now fragment outcome.now))
        × Extended (K.content out.old) (K.content out.new) (take n (result_text plan.now fragment outcome.now))) }
    ensures cause { HasCause (K.fault_count out.old) (K.fault_count out.new) result }
{
    let mut writer = Writer::new();
    writer.put(out, name_at(plan, fragment).as_bytes());
    put_outcome(&mut writer, out, plan, outcome);
    writer.finish(out)
}
