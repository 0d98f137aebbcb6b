//! Masks of texts that a dictionary spells: each entry is compared once, where the entries are no more than the values, and a value
//! passes where its entry does.
ghost use Rattle.std.specs.Prelude.{◌≡◌, ◌<◌, ◌≤◌, length, map, false, get_or, All};
ghost use Rattle.orc_values.specs.declared.value.Value.TheVariants as value;
ghost use Rattle.orc_values.specs.Chosen.{chosen, places_of, AreWithin};
ghost use Rattle.fragment_plan.specs.declared.test.Check.TheVariants as check;
ghost use Rattle.batch_masks.specs.Kept.{both};
ghost use Rattle.batch_masks.specs.Checks.{check_holds, holds_of};

use crate::narrow::{compare_texts, is_so};
use fragment_plan::Op;
use orc_values::{ChosenTexts, Texts, Value, entry_at};

/// How many entries are compared once at most: a batch has so many values.
const FEW: usize = 1024;

/// Lets those texts pass no more that don't compare with the literal so.
pub(crate) fn compare_chosen(mask: &mut [bool], values: &ChosenTexts, op: Op, literal: &Value)
    requires { length mask.old ≡ length values.now }
    ensures { mask.new ≡ both mask.old (holds_of (λ t. value.Text t) op literal.now values.now) }
{
    let (entries, numbers) = values.parts();
    if entries.len() <= FEW && entries.len() <= numbers.len() {
        compare_entries(mask, entries, numbers, op, literal);
    } else {
        compare_each(mask, values, op, literal);
    }
}

/// The same of the entries of these numbers, where the entries are few.
fn compare_entries(mask: &mut [bool], entries: &Texts, numbers: &[i64], op: Op, literal: &Value)
    requires rows { length mask.old ≡ length numbers.now }
    requires within { AreWithin entries.now numbers.now }
    requires few { length entries.now ≤ 1024 }
    ensures { mask.new ≡ both mask.old (holds_of (λ t. value.Text t) op literal.now (chosen entries.now (places_of numbers.now))) }
{
    let mut flags = [true; FEW];
    let (front, _) = flags.split_at_mut(entries.len());
    compare_texts(front, entries, op, literal);
    narrow_chosen(mask, numbers, &flags);
}

/// Lets those values pass no more whose entry's flag isn't set.
///
/// A number is below 1,024, so it is its own remainder, and no index is tested.
fn narrow_chosen(mask: &mut [bool], numbers: &[i64], flags: &[bool; FEW])
    requires rows { length mask.old ≡ length numbers.now }
    requires within { All (λ place. place < 1024) (places_of numbers.now) }
    ensures { mask.new ≡ both mask.old (map (λ place. get_or flags.now place false) (places_of numbers.now)) }
{
    let (cut, _) = numbers.split_at(mask.len());
    for row in 0..mask.len() {
        mask[row] = mask[row] & flags[entry_at(cut, row) % FEW];
    }
}

/// The same of each value by itself, where the entries are more than the values.
fn compare_each(mask: &mut [bool], values: &ChosenTexts, op: Op, literal: &Value)
    requires { length mask.old ≡ length values.now }
    ensures { mask.new ≡ both mask.old (holds_of (λ t. value.Text t) op literal.now values.now) }
{
    for place in 0..values.len() {
        mask[place] = mask[place] & holds(values.get(place), op, literal);
    }
}

/// Whether a text compares with the literal so.
fn holds(text: &[u8], op: Op, literal: &Value) -> bool
    ensures { result ≡ check_holds (check.Compare op literal.now) (value.Text text.now) }
{
    match literal {
        Value::Text(literal) => is_so(op, text.cmp(literal.as_slice())),
        Value::Null => false,
        Value::Bool(_) => false,
        Value::Int(_) => false,
    }
}
