//! Masks: a flag for each row of a batch, which one test after another unsets. A comparison looks at the values that aren't null alone,
//! and at what they are compared with once a batch.
ghost use Rattle.std.specs.Prelude.{◌≡◌, ◌<◌, ◌≤◌, length, map, not, false, replicate, if◌then◌else◌, get_or, slice_range, pos};
ghost use Rattle.std.specs.Prelude.{FitsSigned};
ghost use Rattle.std.specs.Int.{w64};
ghost use Rattle.std.specs.Ordering.{nat_cmp, int_cmp, bool_cmp, is_eq};
ghost use Rattle.std.specs.Cmp.Lexicographic.{slice_cmp};
ghost use Rattle.fragment_plan.specs.declared.test.Check.TheVariants as check;
ghost use Rattle.orc_values.specs.declared.value.Value.TheVariants as value;
ghost use Rattle.orc_values.specs.Column.{entries_in, values_in};
ghost use Rattle.batch_masks.specs.Kept.{both};
ghost use Rattle.batch_masks.specs.Checks.{satisfies, check_holds, holds_of};

use crate::chosen::compare_chosen;
use crate::compares::{
    Compare, IsEqual, IsGreater, IsGreaterOrEqual, IsLess, IsLessOrEqual, IsNotEqual,
};
use crate::moves::{gather, scatter};
use fragment_plan::{Check, Op};
use orc_values::{Column, ColumnValues, Texts, Value};
use std::cmp::Ordering;

/// Up to how many bytes a text is compared byte by byte.
const SHORT: usize = 8;

/// Lets those rows pass no more of whose value the check doesn't hold.
pub(crate) fn narrow(mask: &mut [bool], column: &Column, check: &Check)
    requires rows { length mask.old ≡ length column.now }
    ensures { mask.new ≡ both mask.old (map (check_holds check.now) column.now) }
{
    match check {
        Check::IsNull => narrow_unset(mask, column.present()),
        Check::IsNotNull => narrow_set(mask, column.present()),
        Check::Compare { op, literal } => narrow_compared(mask, column, *op, literal),
    }
}

/// Lets those rows pass no more whose flag isn't set.
///
/// The flags are cut to the mask's length first, which is their own: so no index is tested, and sixteen rows are narrowed at once.
fn narrow_set(mask: &mut [bool], flags: &[bool])
    requires { length mask.old ≡ length flags.now }
    ensures { mask.new ≡ both mask.old flags.now }
{
    let (cut, _) = flags.split_at(mask.len());
    for row in 0..mask.len() {
        mask[row] = mask[row] & cut[row];
    }
}

/// Lets those rows pass no more whose flag is set.
fn narrow_unset(mask: &mut [bool], flags: &[bool])
    requires { length mask.old ≡ length flags.now }
    ensures { mask.new ≡ both mask.old (map not flags.now) }
{
    let (cut, _) = flags.split_at(mask.len());
    for row in 0..mask.len() {
        mask[row] = mask[row] & !cut[row];
    }
}

/// Lets no row pass more.
fn narrow_none(mask: &mut [bool])
    ensures { mask.new ≡ replicate (length mask.old) false }
{
    for row in 0..mask.len() {
        mask[row] = false;
    }
}

/// Lets those rows pass no more whose value doesn't compare with the literal so.
fn narrow_compared(mask: &mut [bool], column: &Column, op: Op, literal: &Value)
    requires rows { length mask.old ≡ length column.now }
    ensures { mask.new ≡ both mask.old (map (check_holds (check.Compare op literal.now)) column.now) }
{
    let count = column.count();
    gather(mask, column.present(), count);
    let (front, _) = mask.split_at_mut(count);
    narrow_values(front, column.values(), op, literal);
    scatter(mask, column.present(), count);
}

/// Lets those values pass no more that don't compare with the literal so.
fn narrow_values(mask: &mut [bool], values: &ColumnValues, op: Op, literal: &Value)
    requires { length mask.old ≡ entries_in values.now }
    ensures { mask.new ≡ both mask.old (map (check_holds (check.Compare op literal.now)) (values_in values.now)) }
{
    match values {
        ColumnValues::Ints(values) => compare_ints(mask, values, op, literal),
        ColumnValues::Bools(values) => compare_bools(mask, values, op, literal),
        ColumnValues::Texts(values) => compare_texts(mask, values, op, literal),
        ColumnValues::Chosen(values) => compare_chosen(mask, values, op, literal),
    }
}

/// The same of numbers.
fn compare_ints(mask: &mut [bool], values: &[i64], op: Op, literal: &Value)
    requires { length mask.old ≡ length values.now }
    ensures { mask.new ≡ both mask.old (holds_of (λ n. value.Int n) op literal.now values.now) }
{
    match literal {
        Value::Int(number) => narrow_ints(mask, values, op, number),
        Value::Null => narrow_none(mask),
        Value::Bool(_) => narrow_none(mask),
        Value::Text(_) => narrow_none(mask),
    }
}

/// The same of truth values.
fn compare_bools(mask: &mut [bool], values: &[bool], op: Op, literal: &Value)
    requires { length mask.old ≡ length values.now }
    ensures { mask.new ≡ both mask.old (holds_of (λ b. value.Bool b) op literal.now values.now) }
{
    match literal {
        Value::Bool(truth) => narrow_bools(mask, values, op, *truth),
        Value::Null => narrow_none(mask),
        Value::Int(_) => narrow_none(mask),
        Value::Text(_) => narrow_none(mask),
    }
}

/// The same of texts.
pub(crate) fn compare_texts(mask: &mut [bool], values: &Texts, op: Op, literal: &Value)
    requires { length mask.old ≡ length values.now }
    ensures { mask.new ≡ both mask.old (holds_of (λ t. value.Text t) op literal.now values.now) }
{
    match literal {
        Value::Text(text) => narrow_texts(mask, values, op, text.as_slice()),
        Value::Null => narrow_none(mask),
        Value::Bool(_) => narrow_none(mask),
        Value::Int(_) => narrow_none(mask),
    }
}

/// The same of numbers, with a number: one loop for each operator.
fn narrow_ints(mask: &mut [bool], values: &[i64], op: Op, literal: &i64)
    requires { length mask.old ≡ length values.now }
    ensures { mask.new ≡ both mask.old (map (λ n. satisfies op (int_cmp n literal.now)) values.now) }
{
    let literal = *literal;
    match op {
        Op::Equal => narrow_by::<IsEqual>(mask, values, literal),
        Op::NotEqual => narrow_by::<IsNotEqual>(mask, values, literal),
        Op::Less => narrow_by::<IsLess>(mask, values, literal),
        Op::LessOrEqual => narrow_by::<IsLessOrEqual>(mask, values, literal),
        Op::Greater => narrow_by::<IsGreater>(mask, values, literal),
        Op::GreaterOrEqual => narrow_by::<IsGreaterOrEqual>(mask, values, literal),
    }
}

fn narrow_by<C: Compare>(mask: &mut [bool], values: &[i64], literal: i64)
    requires { length mask.old ≡ length values.now }
    ensures { mask.new ≡ both mask.old (map (λ n. C.compares n literal) values.now) }
{
    let (cut, _) = values.split_at(mask.len());
    for place in 0..mask.len() {
        mask[place] = mask[place] & C::compares(number_at(cut, place), literal);
    }
}

/// The number at a place.
pub(crate) fn number_at(values: &[i64], place: usize) -> i64
    requires { place < length values.now }
    ensures value { result ≡ get_or values.now place (pos 0) }
    ensures fits { FitsSigned w64 result }
{
    values[place]
}

/// The same of truth values, with a truth value: what the operator answers of each is known before the loop.
fn narrow_bools(mask: &mut [bool], values: &[bool], op: Op, literal: bool)
    requires { length mask.old ≡ length values.now }
    ensures { mask.new ≡ both mask.old (map (λ b. satisfies op (bool_cmp b literal)) values.now) }
{
    let of_false = is_so(op, false.cmp(&literal));
    let of_true = is_so(op, true.cmp(&literal));
    narrow_truths(mask, values, of_false, of_true);
}

/// The same, where it is known what the operator answers of each truth value: one loop, if any, for the two answers.
fn narrow_truths(mask: &mut [bool], values: &[bool], of_false: bool, of_true: bool)
    requires { length mask.old ≡ length values.now }
    ensures { mask.new ≡ both mask.old (map (λ b. if b then of_true else of_false) values.now) }
{
    match (of_false, of_true) {
        (false, true) => narrow_set(mask, values),
        (true, false) => narrow_unset(mask, values),
        (false, false) => narrow_none(mask),
        (true, true) => {}
    }
}

/// The same of texts, with a text.
///
/// Whether a text is the literal is told without their order.
fn narrow_texts(mask: &mut [bool], values: &Texts, op: Op, literal: &[u8])
    requires { length mask.old ≡ length values.now }
    ensures { mask.new ≡ both mask.old (map (λ t. satisfies op (slice_cmp nat_cmp t literal.now)) values.now) }
{
    match op {
        Op::Equal => narrow_same(mask, values, literal, false, true),
        Op::NotEqual => narrow_same(mask, values, literal, true, false),
        _ => narrow_ordered(mask, values, op, literal),
    }
}

/// The same, where it is known what the operator answers of a text that is the literal, and of another: a loop of its own for each
/// operator.
///
/// A text begins where the one before it ends, so that one end is read for each.
#[inline(always)]
fn narrow_same(mask: &mut [bool], values: &Texts, literal: &[u8], of_other: bool, of_same: bool)
    requires { length mask.old ≡ length values.now }
    ensures { mask.new ≡ both mask.old (map (λ t. if is_eq (slice_cmp nat_cmp t literal.now) then of_same else of_other) values.now) }
{
    let (bytes, ends) = values.parts();
    let (cut, _) = ends.split_at(mask.len());
    let mut start = 0;
    for place in 0..mask.len() {
        let end = cut[place];
        let passes = answer(is_between(bytes, start, end, literal), of_other, of_same);
        start = end;
        if passes {
            continue;
        }
        mask[place] = false;
    }
}

/// One of two answers.
#[inline(always)]
fn answer(same: bool, of_other: bool, of_same: bool) -> bool
    ensures { result ≡ if same then of_same else of_other }
{
    if same { of_same } else { of_other }
}

/// Whether the bytes between two places are the literal. Most texts have another length, and then no byte is looked at.
#[inline(always)]
fn is_between(bytes: &[u8], start: usize, end: usize, literal: &[u8]) -> bool
    requires order { start ≤ end }
    requires within { end ≤ length bytes.now }
    ensures { result ≡ is_eq (slice_cmp nat_cmp (slice_range bytes.now start end) literal.now) }
{
    if end != start + literal.len() {
        return false;
    }
    is_same(&bytes[start..end], literal)
}

/// Whether a text of the literal's length is the literal: a short one is looked at byte by byte, which costs less than a call.
fn is_same(text: &[u8], literal: &[u8]) -> bool
    requires { length text.now ≡ length literal.now }
    ensures { result ≡ is_eq (slice_cmp nat_cmp text.now literal.now) }
{
    if literal.len() > SHORT {
        return text.cmp(literal).is_eq();
    }
    for (place, byte) in text.iter().enumerate() {
        if *byte != literal[place] {
            return false;
        }
    }
    true
}

/// Lets those texts pass no more that don't stand in such an order with the literal.
fn narrow_ordered(mask: &mut [bool], values: &Texts, op: Op, literal: &[u8])
    requires { length mask.old ≡ length values.now }
    ensures { mask.new ≡ both mask.old (map (λ t. satisfies op (slice_cmp nat_cmp t literal.now)) values.now) }
{
    for place in 0..values.len() {
        mask[place] = mask[place] & is_so(op, values.get(place).cmp(literal));
    }
}

/// Whether a comparison came out as the operator wants.
pub(crate) fn is_so(op: Op, order: Ordering) -> bool
    ensures { result ≡ satisfies op order }
{
    match op {
        Op::Equal => order.is_eq(),
        Op::NotEqual => !order.is_eq(),
        Op::Less => order.is_lt(),
        Op::LessOrEqual => !order.is_gt(),
        Op::Greater => order.is_gt(),
        Op::GreaterOrEqual => !order.is_lt(),
    }
}
