//! Folds and merges of batches, and what is printed of them.
use crate::batches::give;
use fragment_folds::{Fold, Merge};
use fragment_outcome::{Answer, Failure, Outcome, write_result};
use fragment_plan::{Plan, Work, read_plan};
use outside::MemorySink;
use std::alloc::Global;

/// A plan, the batches of its scans and what is printed of its last fragment. Lines and batches are parted by `|`, and scans by `/`.
const FOLDS: [(&str, &str, &str); 25] = [
    ("s sum x from t", "i1,2,_|i3", "s sum 6\n"),
    ("s sum x from t", "i_,_", "s sum null\n"),
    (
        "s sum x from t",
        "i9223372036854775807,1,-1",
        "s sum 9223372036854775807\n",
    ),
    (
        "s sum x from t",
        "i9223372036854775807,1",
        "s failed overflow\n",
    ),
    (
        "s sum x from t",
        "i4503599627370495,-4503599627370496|i4503599627370496,-4503599627370497",
        "s sum -2\n",
    ),
    (
        "s sum x from t where y = true",
        "i1,2,_,4;b1,0,1,1",
        "s sum 5\n",
    ),
    ("n count from t where x != 2", "i1,2,_,3", "n count 2\n"),
    ("n count from t where x <= -1", "i-2,-1,_,0", "n count 2\n"),
    ("n count from t where x < 2", "i1,2,_,3", "n count 1\n"),
    ("n count from t where x is null", "i1,_,_", "n count 2\n"),
    (
        "n count from t where x is not null and y > 'a'",
        "i1,_,2;tb,b,a",
        "n count 1\n",
    ),
    ("n count from t", "#7", "n count 7\n"),
    (
        "n count from t",
        "#9223372036854775807|#1",
        "n failed overflow\n",
    ),
    (
        "g group x from t",
        "tb,_,a,b|ta",
        "g group 3\nnull\t1\n\"a\"\t2\n\"b\"\t2\n",
    ),
    (
        "g group x from t where y = true",
        "i2,-1,2,2;b1,1,0,1",
        "g group 2\n-1\t1\n2\t2\n",
    ),
    (
        "g group x from t",
        "b1,0,_,1",
        "g group 3\nnull\t1\nfalse\t1\ntrue\t2\n",
    ),
    (
        "r rows y,x,y from t where x >= 2",
        "ta,c\\d,_;i1,2,3",
        "r rows 2\n\"c\\\\d\"\t2\t\"c\\\\d\"\nnull\t3\tnull\n",
    ),
    (
        "r rows x from t where x < 'b'",
        "ta \"\u{1}\u{7F}é,b,_",
        "r rows 1\n\"a \\\"\\x01\\x7fé\"\n",
    ),
    ("g group x from t", "i_", "g group 1\nnull\t1\n"),
    ("r rows x from t", "i_,1,2,3", "r rows 4\nnull\n1\n2\n3\n"),
    (
        "g group x from t",
        "da+b+c:1,0,1|dc+b:1,1",
        "g group 2\n\"a\"\t1\n\"b\"\t4\n",
    ),
    (
        "g group x from t",
        "da+b:1,_,1,_,0",
        "g group 3\nnull\t2\n\"a\"\t1\n\"b\"\t2\n",
    ),
    (
        "g group x from t where y = true",
        "da+b+a:0,2,1,_,_,2;b1,1,0,0,1,1",
        "g group 2\nnull\t1\n\"a\"\t3\n",
    ),
    (
        "g group x from t where y = true",
        "da+b+a:2,1,0;b1,0,1",
        "g group 1\n\"a\"\t2\n",
    ),
    (
        "g group x from t",
        "da+b+c:2,_",
        "g group 2\nnull\t1\n\"c\"\t1\n",
    ),
];

const MERGES: [(&str, &str, &str); 6] = [
    (
        "a count from t|b count from t|m merge a,b",
        "#3/#4",
        "m count 7\n",
    ),
    (
        "a sum x from t|b sum x from t|m merge a,b",
        "i9223372036854775807/i1",
        "m failed overflow\n",
    ),
    (
        "a sum x from t|b sum x from t|m merge a,b",
        "i_/i-5",
        "m sum -5\n",
    ),
    (
        "a sum x from t|b sum x from t|m merge a,b",
        "i_/i_",
        "m sum null\n",
    ),
    (
        "a group x from t|b group x from t|m merge b,a",
        "i1,2/i2,3",
        "m group 3\n1\t1\n2\t2\n3\t1\n",
    ),
    (
        "a rows x from t|b rows x from t|m merge b,a",
        "i1/i2,_",
        "m rows 3\n2\nnull\n1\n",
    ),
];

fn plan_of(alloc: Global, text: &str) -> Option<Plan> {
    let mut bytes = Vec::new(alloc);
    for byte in text.as_bytes() {
        let byte = if *byte == b'|' { b'\n' } else { *byte };
        bytes.push(byte).ok()?;
    }
    read_plan(alloc, &bytes).ok()
}

/// The answer of a scan of a plan over its batches, or none where a total isn't in 64 bits.
fn answer_of(alloc: Global, plan: &Plan, number: u32, batches: &str) -> Option<Option<Answer>> {
    let fragment = plan.fragments().get(number as usize)?;
    let Work::Scan(_) = &fragment.work else {
        return None;
    };
    let mut fold = Fold::new(alloc, plan, number).ok()?;
    for batch in batches.split('|') {
        give(alloc, &mut fold, batch)?;
    }
    Some(fold.finish().ok())
}

/// The answers of the scans of a plan, each over its batches.
fn answers_of(alloc: Global, plan: &Plan, scans: &str) -> Option<Vec<Answer>> {
    let mut answers = Vec::new(alloc);
    let mut number = 0u32;
    for batches in scans.split('/') {
        answers
            .push(answer_of(alloc, plan, number, batches)??)
            .ok()?;
        number = number.saturating_add(1);
    }
    Some(answers)
}

/// Adds the answers of these sources.
fn add_all(alloc: Global, merge: &mut Merge, sources: &[u32], answers: &[Answer]) -> Option<()> {
    for source in sources {
        if merge.answers() > 1000 {
            return None;
        }
        merge.add(alloc, answers.get(*source as usize)?).ok()?;
    }
    Some(())
}

/// What becomes of a merge of these answers, in the order of its line.
fn merged(alloc: Global, sources: &[u32], answers: &[Answer]) -> Option<Outcome> {
    let (first, others) = sources.split_first()?;
    let mut merge = Merge::new(alloc, answers.get(*first as usize)?).ok()?;
    add_all(alloc, &mut merge, others, answers)?;
    match merge.finish() {
        Ok(answer) => Some(Outcome::Answer(answer)),
        Err(_) => Some(Outcome::Failure(Failure::Overflow)),
    }
}

/// Whether a fragment's outcome is written to a sink.
pub fn writes(plan: &Plan, number: u32, outcome: &Outcome, sink: &mut MemorySink) -> bool {
    write_result(plan, number, outcome, sink).is_ok()
}

/// Whether that is printed of a fragment's outcome.
pub fn prints(alloc: Global, plan: &Plan, number: u32, outcome: &Outcome, text: &str) -> bool {
    match MemorySink::new(alloc, Vec::new(alloc), 200) {
        Ok(mut sink) => {
            writes(plan, number, outcome, &mut sink) && sink.written() == Some(text.as_bytes())
        }
        Err(_) => false,
    }
}

fn folds_to(alloc: Global, plan: &str, batches: &str, text: &str) -> Option<bool> {
    let plan = plan_of(alloc, plan)?;
    let outcome = match answer_of(alloc, &plan, 0, batches)? {
        Some(answer) => Outcome::Answer(answer),
        None => Outcome::Failure(Failure::Overflow),
    };
    Some(prints(alloc, &plan, 0, &outcome, text))
}

/// The outcome of a plan's last fragment, which merges the answers of all others.
fn merge_of(alloc: Global, plan: &Plan, answers: &[Answer]) -> Option<Outcome> {
    match &plan.fragments().get(answers.len())?.work {
        Work::Merge(sources) => merged(alloc, sources.as_slice(), answers),
        Work::Scan(_) => None,
    }
}

fn merges_to(alloc: Global, plan: &str, scans: &str, text: &str) -> Option<bool> {
    let plan = plan_of(alloc, plan)?;
    let answers = answers_of(alloc, &plan, scans)?;
    let number = u32::try_from(answers.len()).ok()?;
    let outcome = merge_of(alloc, &plan, &answers)?;
    Some(prints(alloc, &plan, number, &outcome, text))
}

fn all_fold(alloc: Global) -> bool {
    for (plan, batches, text) in &FOLDS {
        if folds_to(alloc, plan, batches, text) != Some(true) {
            return false;
        }
    }
    true
}

fn all_merge(alloc: Global) -> bool {
    for (plan, scans, text) in &MERGES {
        if merges_to(alloc, plan, scans, text) != Some(true) {
            return false;
        }
    }
    true
}

#[test]
fn each_fold_prints_its_answer(rt: HostRuntime) {
    assert!(rt; all_fold(rt.alloc()));
}

#[test]
fn each_merge_prints_its_answer(rt: HostRuntime) {
    assert!(rt; all_merge(rt.alloc()));
}
