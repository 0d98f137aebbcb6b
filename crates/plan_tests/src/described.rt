//! A plan, spelled out field by field.
use fragment_plan::{Check, FoldKind, Fragment, Op, Plan, Scan, Test, Work};
use orc_values::Value;
use std::alloc::{AllocError, Global};

/// Behind the word `good` each fragment in brackets: its name, what it does, its file, columns and tests, and the fragments behind
/// which it is to be done.
pub fn described(alloc: Global, plan: &Plan) -> Result<String, AllocError> {
    let mut out = String::from_str(alloc, "good")?;
    for fragment in plan.fragments() {
        add_fragment(alloc, &mut out, fragment)?;
    }
    Ok(out)
}

fn add_fragment(alloc: Global, out: &mut String, fragment: &Fragment) -> Result<(), AllocError> {
    out.push_str("[")?;
    out.push_str(fragment.name.as_str())?;
    match &fragment.work {
        Work::Scan(scan) => add_scan(alloc, out, scan)?,
        Work::Merge(sources) => add_numbers(alloc, out, " merge", sources.as_slice())?,
    }
    add_numbers(alloc, out, " after", fragment.after.as_slice())?;
    out.push_str("]")
}

fn add_scan(alloc: Global, out: &mut String, scan: &Scan) -> Result<(), AllocError> {
    match &scan.fold {
        FoldKind::Rows(columns) => add_numbers(alloc, out, " rows", columns.as_slice())?,
        FoldKind::Count => out.push_str(" count")?,
        FoldKind::Sum(column) => add_number(alloc, out, " sum ", i64::from(*column))?,
        FoldKind::Group(column) => add_number(alloc, out, " group ", i64::from(*column))?,
    }
    out.push_str(" from ")?;
    out.push_str(scan.file.as_str())?;
    for name in scan.columns.as_slice() {
        out.push_str(" ")?;
        out.push_str(name.as_str())?;
    }
    add_tests(alloc, out, scan.tests.as_slice())
}

fn add_numbers(
    alloc: Global,
    out: &mut String,
    word: &str,
    numbers: &[u32],
) -> Result<(), AllocError> {
    if !numbers.is_empty() {
        out.push_str(word)?;
    }
    for number in numbers {
        add_number(alloc, out, " ", i64::from(*number))?;
    }
    Ok(())
}

fn add_number(alloc: Global, out: &mut String, word: &str, number: i64) -> Result<(), AllocError> {
    out.push_str(word)?;
    let digits = format!(in alloc; "{number}")?;
    out.push_str(digits.as_str())
}

fn add_tests(alloc: Global, out: &mut String, tests: &[Test]) -> Result<(), AllocError> {
    for test in tests {
        add_number(alloc, out, " ? ", i64::from(test.column))?;
        match &test.check {
            Check::Compare { op, literal } => add_compared(alloc, out, *op, literal)?,
            Check::IsNull => out.push_str(" null")?,
            Check::IsNotNull => out.push_str(" not null")?,
        }
    }
    Ok(())
}

fn add_compared(
    alloc: Global,
    out: &mut String,
    op: Op,
    literal: &Value,
) -> Result<(), AllocError> {
    out.push_str(op_words(op))?;
    match literal {
        Value::Null => out.push_str("nothing"),
        Value::Bool(true) => out.push_str("yes"),
        Value::Bool(false) => out.push_str("no"),
        Value::Int(number) => add_number(alloc, out, "", *number),
        Value::Text(bytes) => {
            out.push_str("text ")?;
            out.push_str(str::from_utf8(bytes.as_slice()).unwrap_or("?"))
        }
    }
}

fn op_words(op: Op) -> &'static str {
    match op {
        Op::Equal => " eq ",
        Op::NotEqual => " ne ",
        Op::Less => " lt ",
        Op::LessOrEqual => " le ",
        Op::Greater => " gt ",
        Op::GreaterOrEqual => " ge ",
    }
}
