//! Whether plans are the same, field by field, without memory.

ghost use Rattle.std.specs.Prelude.{◌≡◌, ◌↔◌, IsTrue};

use crate::fragment::{FoldKind, Fragment, Scan, Work};
use crate::test::{Check, Op, Test};
use orc_values::Value;
use outside::Name;

/// Whether both are the same fragments, in the same order.
pub(crate) fn are_same(one: &[Fragment], two: &[Fragment]) -> bool
    ensures { IsTrue result ↔ (one.now ≡ two.now) }
{
    let Some((first, others)) = one.split_first() else {
        return two.is_empty();
    };
    let Some((second, more)) = two.split_first() else {
        return false;
    };
    is_same_fragment(first, second) && are_same(others, more)
}

fn is_same_fragment(one: &Fragment, two: &Fragment) -> bool
    ensures { IsTrue result ↔ (one.now ≡ two.now) }
{
    is_same_name(&one.name, &two.name)
        && is_same_work(&one.work, &two.work)
        && are_same_numbers(one.after.as_slice(), two.after.as_slice())
}

fn is_same_name(one: &Name, two: &Name) -> bool
    ensures { IsTrue result ↔ (one.now ≡ two.now) }
{
    one.as_str() == two.as_str()
}

fn are_same_names(one: &[Name], two: &[Name]) -> bool
    ensures { IsTrue result ↔ (one.now ≡ two.now) }
{
    let Some((first, others)) = one.split_first() else {
        return two.is_empty();
    };
    let Some((second, more)) = two.split_first() else {
        return false;
    };
    is_same_name(first, second) && are_same_names(others, more)
}

fn are_same_numbers(one: &[u32], two: &[u32]) -> bool
    ensures { IsTrue result ↔ (one.now ≡ two.now) }
{
    one == two
}

fn is_same_work(one: &Work, two: &Work) -> bool
    ensures { IsTrue result ↔ (one.now ≡ two.now) }
{
    match (one, two) {
        (Work::Scan(one), Work::Scan(two)) => is_same_scan(one, two),
        (Work::Merge(one), Work::Merge(two)) => are_same_numbers(one.as_slice(), two.as_slice()),
        _ => false,
    }
}

fn is_same_scan(one: &Scan, two: &Scan) -> bool
    ensures { IsTrue result ↔ (one.now ≡ two.now) }
{
    is_same_name(&one.file, &two.file)
        && are_same_names(one.columns.as_slice(), two.columns.as_slice())
        && is_same_fold(&one.fold, &two.fold)
        && are_same_tests(one.tests.as_slice(), two.tests.as_slice())
}

fn is_same_fold(one: &FoldKind, two: &FoldKind) -> bool
    ensures { IsTrue result ↔ (one.now ≡ two.now) }
{
    match (one, two) {
        (FoldKind::Rows(one), FoldKind::Rows(two)) => {
            are_same_numbers(one.as_slice(), two.as_slice())
        }
        (FoldKind::Count, FoldKind::Count) => true,
        (FoldKind::Sum(one), FoldKind::Sum(two)) => *one == *two,
        (FoldKind::Group(one), FoldKind::Group(two)) => *one == *two,
        _ => false,
    }
}

fn are_same_tests(one: &[Test], two: &[Test]) -> bool
    ensures { IsTrue result ↔ (one.now ≡ two.now) }
{
    let Some((first, others)) = one.split_first() else {
        return two.is_empty();
    };
    let Some((second, more)) = two.split_first() else {
        return false;
    };
    is_same_test(first, second) && are_same_tests(others, more)
}

fn is_same_test(one: &Test, two: &Test) -> bool
    ensures { IsTrue result ↔ (one.now ≡ two.now) }
{
    one.column == two.column && is_same_check(&one.check, &two.check)
}

fn is_same_op(one: Op, two: Op) -> bool
    ensures { IsTrue result ↔ (one ≡ two) }
{
    one == two
}

fn is_same_check(one: &Check, two: &Check) -> bool
    ensures { IsTrue result ↔ (one.now ≡ two.now) }
{
    match (one, two) {
        (
            Check::Compare { op, literal },
            Check::Compare {
                op: other_op,
                literal: other,
            },
        ) => is_same_op(*op, *other_op) && is_same_literal(literal, other),
        (Check::IsNull, Check::IsNull) => true,
        (Check::IsNotNull, Check::IsNotNull) => true,
        _ => false,
    }
}

fn is_same_literal(one: &Value, two: &Value) -> bool
    ensures { IsTrue result ↔ (one.now ≡ two.now) }
{
    one.as_ref().is_same(two.as_ref())
}
