//! The top call: reads words and plan, runs the plan, and writes its results.
ghost use Rattle.std.specs.Prelude.{◌≡◌, IfOk, map};
ghost use Rattle.outside.specs.Cause.{Rose};
ghost use Rattle.data_path.specs.Geometries.{IsThrough};
ghost use Rattle.data_path.specs.Headline.{AnswersCall, Completes, CompletesGenerated, call_of};
ghost use Rattle.data_path.specs.PlanBytes.{IsFault};
ghost use Rattle.data_path.specs.Steps.{ChosenPlan, NotRead};

use crate::inline::alone;
use crate::plan_bytes::{PlanBytesError, read_all};
use crate::status::Status;
use crate::writing::written;
use command_line::laws::words_mean_one_thing;
use command_line::{Options, WordsFault, options, usage_line};
use generated_plan::generated_plan;
use generated_plan::laws::generated_plans_are_read;
use outside::{Bytes, Gate, NoMemory, Sink, Source, Store, World};
use plan_run::laws::quiet_runs_mean_the_plan;
use std::alloc::Global;

/// The most bytes that are read of a plan: one more than a plan has at most.
const MOST_READ: usize = 1_048_577;

/// The bytes of the plan that the options ask for: that of their generated file, and then the source is as it was, or else what the
/// source gives.
///
/// `Fault` comes only where the source's faults rose, and no generated file is asked for.
fn plan_for<P: Source>(
    alloc: Global,
    options: &Options,
    plan: &mut P,
) -> Result<Bytes, PlanBytesError>
    ensures ok { IfOk result (ChosenPlan options.now (P.left plan.old) (P.left plan.new) (plan.new ≡ plan.old)) }
    ensures fault { IsFault result → NotRead options.now (P.fault_count plan.old) (P.fault_count plan.new) }
{
    match options.generated {
        Some(number) => match generated_plan(alloc, number, options.rows) {
            Ok(bytes) => Ok(bytes),
            Err(NoMemory) => Err(PlanBytesError::NoMemory),
        },
        None => read_all(alloc, plan, MOST_READ),
    }
}

/// Runs a plan over the files of a world, and writes each fragment's result.
///
/// `words` are those after the program's name, read by `command_line::options`. Everything is read through `last` by the caller;
/// `more` and `gate` aren't used yet.
///
/// Words that are no command line write the usage line: `Usage`, and plan and store are as they were. Where they ask for a generated
/// file its plan is run, and the source is as it was. Else the plan is read to its end or to 1,048,577 bytes: `PlanFault` only where its
/// source's faults rose, and then nothing is written. Then it does what `alone` does: `BadPlan`, `Done`, `SomeFailed`, `WriteFault`,
/// `NoMemory`.
///
/// A generated file is looked up in `last` by its name, as every file is: a store of `generated_store` has it.
pub fn llapd<W: World, P: Source, S: Store<W> + Send + Drop, K: Sink, G: Gate + Sync>(
    alloc: Global,
    words: &[&str],
    plan: &mut P,
    last: &mut S,
    _more: Vec<S>,
    out: &mut K,
    _gate: &G,
) -> Status
    ensures answers { AnswersCall
        (call_of P.left P.fault_count S.fault_count S.reads W.files (map (λ word. word.now) words.now)
        plan.old plan.new last.old last.new)
        (IsThrough W W.files (S.reads last.old) (S.reads last.new)) (plan.new ≡ plan.old) (last.new ≡ last.old)
        (Rose (K.fault_count out.old) (K.fault_count out.new)) (K.content out.old) (K.content out.new) result }
    ensures complete { Completes
        (call_of P.left P.fault_count S.fault_count S.reads W.files (map (λ word. word.now) words.now)
        plan.old plan.new last.old last.new)
        (Rose (K.fault_count out.old) (K.fault_count out.new)) (K.content out.old) (K.content out.new) result }
    ensures complete_generated { CompletesGenerated
        (call_of P.left P.fault_count S.fault_count S.reads W.files (map (λ word. word.now) words.now)
        plan.old plan.new last.old last.new)
        (Rose (K.fault_count out.old) (K.fault_count out.new)) (K.content out.old) (K.content out.new) result }
{
    quiet_runs_mean_the_plan();
    words_mean_one_thing();
    generated_plans_are_read();
    let options = match options(alloc, words) {
        Ok(options) => options,
        Err(WordsFault::Usage) => return written(out, usage_line(), Status::Usage),
        Err(WordsFault::NoMemory) => return Status::NoMemory,
    };
    match plan_for(alloc, &options, plan) {
        Ok(bytes) => alone(alloc, &options, bytes.as_slice(), last, out),
        Err(PlanBytesError::Fault(_)) => Status::PlanFault,
        Err(PlanBytesError::NoMemory) => Status::NoMemory,
    }
}
