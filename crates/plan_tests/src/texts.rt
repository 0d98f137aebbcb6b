//! Plans as they stand in the tables of tests, and what is read of them.
use crate::described::described;
use fragment_plan::{PlanError, read_plan};
use std::alloc::Global;

/// Adds a part `N:TEXT` of a text: N times the text, with the number of the time in place of `~`, and that of the next in place of `%`.
fn add_times(alloc: Global, out: &mut String, part: &str) -> Option<()> {
    let (count, text) = part.split_once(':')?;
    for number in 0..count.parse::<u32>().ok()? {
        let this = format!(in alloc; "{number}").ok()?;
        let next = format!(in alloc; "{}", number.saturating_add(1)).ok()?;
        let text = text.replace(alloc, '~', this.as_str()).ok()?;
        let text = text.replace(alloc, '%', next.as_str()).ok()?;
        out.push_str(text.as_str()).ok()?;
    }
    Some(())
}

/// A text in a table, where a part in braces is repeated, and `|` stands for byte 0A, `@` for 0D and `^` for a tab.
fn spelled(alloc: Global, text: &str) -> Option<String> {
    let text = text.replace(alloc, '|', "\n").ok()?;
    let text = text.replace(alloc, '@', "\r").ok()?;
    let text = text.replace(alloc, '^', "\t").ok()?;
    let mut out = String::new(alloc);
    for part in text.split('{') {
        let mut rest = part;
        if let Some((repeated, behind)) = part.split_once('}') {
            add_times(alloc, &mut out, repeated)?;
            rest = behind;
        }
        out.push_str(rest).ok()?;
    }
    Some(out)
}

/// What is read of a plan: its fragments, or the line and the words of its first fault.
fn words_of(alloc: Global, text: &str) -> Option<String> {
    match read_plan(alloc, text.as_bytes()) {
        Ok(plan) => described(alloc, &plan.again().ok()?).ok(),
        Err(PlanError::Fault { line, kind }) => {
            format!(in alloc; "{line} {}", kind.words()).ok()
        }
        Err(PlanError::NoMemory) => None,
    }
}

/// Whether of a row's plan is read what stands before it.
fn holds(alloc: Global, row: &str) -> Option<bool> {
    let (wanted, plan) = row.split_once(" : ")?;
    let words = words_of(alloc, spelled(alloc, plan)?.as_str())?;
    Some(words.as_str() == spelled(alloc, wanted)?.as_str())
}

pub fn all_hold(alloc: Global, table: &str) -> bool {
    for row in table.lines() {
        if holds(alloc, row) != Some(true) {
            return false;
        }
    }
    true
}
