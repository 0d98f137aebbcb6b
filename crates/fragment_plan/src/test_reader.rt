//! The tests of a line.

ghost use Rattle.std.specs.Prelude.{◌≡◌};
ghost use Rattle.plan_words.specs.Steps.{Gives, GivesOr};
ghost use Rattle.fragment_plan.specs.Tests.{op_of, is_equality, may_compare, compared, null_check_by, null_check};
ghost use Rattle.fragment_plan.specs.Tests.{check_by, check, one_test, more_tests, tests};

use crate::test::{Check, Op, Test};
use orc_values::Value;
use plan_names::{Columns, read_column};
use plan_words::{PlanKind, Stop, read_keyword, read_literal, read_name, read_option, read_word};
use std::alloc::Global;

/// The most tests of a fragment.
const MOST_TESTS: u32 = 16;

/// The operator of a word.
fn op_of_word(found: &[u8]) -> Option<Op>
    ensures { result ≡ op_of found.now }
{
    if found == b"=".as_slice() {
        return Some(Op::Equal);
    }
    if found == b"!=".as_slice() {
        return Some(Op::NotEqual);
    }
    if found == b"<".as_slice() {
        return Some(Op::Less);
    }
    if found == b"<=".as_slice() {
        return Some(Op::LessOrEqual);
    }
    if found == b">".as_slice() {
        return Some(Op::Greater);
    }
    if found == b">=".as_slice() {
        return Some(Op::GreaterOrEqual);
    }
    None
}

/// Whether truth values are compared by the operator.
fn is_for_truth(op: Op) -> bool
    ensures { result ≡ is_equality op }
{
    match op {
        Op::Equal | Op::NotEqual => true,
        Op::Less | Op::LessOrEqual | Op::Greater | Op::GreaterOrEqual => false,
    }
}

/// Whether a literal may stand behind the operator.
fn may_follow(op: Op, literal: &Value) -> bool
    ensures { result ≡ may_compare op literal.now }
{
    match literal {
        Value::Bool(_) => is_for_truth(op),
        Value::Null | Value::Int(_) | Value::Text(_) => true,
    }
}

/// A comparison, behind its operator, and what is left.
fn read_compared(alloc: Global, op: Option<Op>, left: &[u8]) -> Result<(Check, &[u8]), Stop>
    ensures { GivesOr (λ x. (x.0, x.1.now)) result (compared op left.now) }
{
    let Some(op) = op else {
        return Err(Stop::Fault(PlanKind::BadWord));
    };
    let (literal, rest) = read_literal(alloc, left)?;
    if !may_follow(op, &literal) {
        return Err(Stop::Fault(PlanKind::BadLiteral));
    }
    Ok((Check::Compare { op, literal }, rest))
}

/// What a test asks behind `is`, and what is left.
#[tactic(auto, unfolding(crate::specs::Tests::null_check))]
fn read_null_check(left: &[u8]) -> Result<(Check, &[u8]), PlanKind>
    ensures { Gives (λ x. (x.0, x.1.now)) result (null_check left.now) }
{
    let (negated, rest) = read_option(b"not", left);
    let rest = read_keyword(b"null", rest)?;
    if negated {
        return Ok((Check::IsNotNull, rest));
    }
    Ok((Check::IsNull, rest))
}

/// What a test asks of its column, behind the column and the word `found`, and what is left.
fn read_check_by<'a>(alloc: Global, found: &[u8], left: &'a [u8]) -> Result<(Check, &'a [u8]), Stop>
    ensures { GivesOr (λ x. (x.0, x.1.now)) result (check_by found.now left.now) }
{
    if found == b"is".as_slice() {
        let (check, rest) = read_null_check(left)?;
        return Ok((check, rest));
    }
    read_compared(alloc, op_of_word(found), left)
}

/// What a test asks of its column, and what is left.
#[tactic(auto, unfolding(crate::specs::Tests::check))]
fn read_check(alloc: Global, left: &[u8]) -> Result<(Check, &[u8]), Stop>
    ensures { GivesOr (λ x. (x.0, x.1.now)) result (check left.now) }
{
    let (found, rest) = read_word(left)?;
    read_check_by(alloc, found, rest)
}

/// One test, with the columns that are named then, and what is left.
#[tactic(auto, unfolding(crate::specs::Tests::one_test))]
fn read_test(alloc: Global, columns: Columns, left: &[u8]) -> Result<(Test, Columns, &[u8]), Stop>
    ensures { GivesOr (λ x. ((x.0, x.1), x.2.now)) result (one_test columns left.now) }
{
    let (column, columns, rest) = read_column(alloc, columns, left)?;
    let (check, rest) = read_check(alloc, rest)?;
    Ok((Test { column, check }, columns, rest))
}

/// Tests joined by `and`, behind the tests `done`, where `room` more fit.
#[tactic(auto, unfolding(crate::specs::Tests::more_tests))]
fn read_more_tests(
    alloc: Global,
    room: u32,
    columns: Columns,
    done: Vec<Test>,
    left: &[u8],
) -> Result<(Vec<Test>, Columns, &[u8]), Stop>
    ensures { GivesOr (λ x. ((x.0.items, x.1), x.2.now)) result (more_tests room columns done.items left.now) }
{
    if room == 0 {
        read_name(left)?;
        return Err(Stop::Fault(PlanKind::TooMany));
    }
    let (one, columns, rest) = read_test(alloc, columns, left)?;
    let mut done = done;
    done.push(one)?;
    let (goes_on, rest) = read_option(b"and", rest);
    if !goes_on {
        return Ok((done, columns, rest));
    }
    read_more_tests(alloc, room - 1, columns, done, rest)
}

/// The tests of a line, or none, with the columns that are named then, and what is left.
#[tactic(auto, unfolding(crate::specs::Tests::tests))]
pub(crate) fn read_tests(
    alloc: Global,
    columns: Columns,
    left: &[u8],
) -> Result<(Vec<Test>, Columns, &[u8]), Stop>
    ensures { GivesOr (λ x. ((x.0.items, x.1), x.2.now)) result (tests columns left.now) }
{
    let done = Vec::new(alloc);
    let (some, rest) = read_option(b"where", left);
    if !some {
        return Ok((done, columns, rest));
    }
    read_more_tests(alloc, MOST_TESTS, columns, done, rest)
}
