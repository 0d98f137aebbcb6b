//! Literals.

ghost use Rattle.std.specs.Prelude.{◌≡◌, ◌≤◌, ◌^◌, ℕ, IfSome};
ghost use Rattle.std.specs.Char.{is_ascii_digit};
ghost use Rattle.std.specs.List.{list_all};
ghost use Rattle.std.specs.Str.Parse.{digits_value};
ghost use Rattle.plan_words.specs.Literals.{is_numeral, number_up_to, number_of, plain_literal, unquoted, literal_at, literal};
ghost use Rattle.plan_words.specs.Steps.{Gives, GivesOr};

use crate::fault::{PlanKind, Stop};
use crate::reading::read_word;
use crate::words::{after_blanks, unquote, word_length};
use orc_values::Value;
use outside::Bytes;
use std::alloc::Global;

/// A literal: a number, a truth value, or a text in single quotes, which is copied.
///
/// Refuses as a bad word where none is left or a quote isn't closed, and as a bad literal where it is of no
/// form, doesn't fit 64 bits, or another byte than a blank follows the closing quote.
#[tactic(auto, unfolding(crate::specs::Literals::literal))]
pub fn read_literal(alloc: Global, left: &[u8]) -> Result<(Value, &[u8]), Stop>
    ensures { GivesOr (λ x. (x.0, x.1.now)) result (literal left.now) }
{
    read_literal_at(alloc, after_blanks(left))
}

/// A literal, with which `here` begins.
fn read_literal_at(alloc: Global, here: &[u8]) -> Result<(Value, &[u8]), Stop>
    ensures { GivesOr (λ x. (x.0, x.1.now)) result (literal_at here.now) }
{
    let Some((&byte, left)) = here.split_first() else {
        return Err(Stop::Fault(PlanKind::BadWord));
    };
    if byte != b'\'' {
        return Ok(read_unquoted(here)?);
    }
    let Some((text, rest)) = unquote(alloc, left)? else {
        return Err(Stop::Fault(PlanKind::BadWord));
    };
    if word_length(rest) != 0 {
        return Err(Stop::Fault(PlanKind::BadLiteral));
    }
    Ok((Value::Text(Bytes::new(text)), rest))
}

/// A literal that isn't in quotes.
fn read_unquoted(left: &[u8]) -> Result<(Value, &[u8]), PlanKind>
    ensures { Gives (λ x. (x.0, x.1.now)) result (unquoted left.now) }
{
    let (found, rest) = read_word(left)?;
    Ok((plain_value(found)?, rest))
}

/// The value of a word.
fn plain_value(found: &[u8]) -> Result<Value, PlanKind>
    ensures { result ≡ plain_literal found.now }
{
    if found == b"true".as_slice() {
        return Ok(Value::Bool(true));
    }
    if found == b"false".as_slice() {
        return Ok(Value::Bool(false));
    }
    match read_number(found) {
        Some(number) => Ok(Value::Int(number)),
        None => Err(PlanKind::BadLiteral),
    }
}

/// A number with an optional `-`.
fn read_number(found: &[u8]) -> Option<i64>
    ensures { result ≡ number_of found.now }
{
    let (&byte, digits) = found.split_first()?;
    if byte == b'-' {
        let size = digits_up_to(1 << 63, digits)?;
        return Some((0 - size as i128) as i64);
    }
    let size = digits_up_to((1 << 63) - 1, found)?;
    Some(size as i64)
}

/// The number that digits write, where it is at most `most`.
fn digits_up_to(most: u64, digits: &[u8]) -> Option<u64>
    requires { most ≤ 2 ^ 63 }
    ensures value { result ≡ number_up_to most digits.now }
    ensures within { IfSome result (λ n. n ≤ most) }
{
    if !is_numeral(digits) {
        return None;
    }
    let mut value: u128 = 0;
    let mut rest = digits;
    while let Some((&byte, after)) = rest.split_first() {
        value = value * 10 + (byte - b'0') as u128;
        if value > most as u128 {
            return None;
        }
        rest = after;
    }
    Some(value as u64)
}

/// Whether these are decimal digits without a leading zero.
fn is_numeral(digits: &[u8]) -> bool
    ensures { result ≡ is_numeral digits.now }
{
    match digits {
        [] => false,
        [_] => are_digits(digits),
        [first, ..] => *first != b'0' && are_digits(digits),
    }
}

/// Whether all bytes are decimal digits.
fn are_digits(digits: &[u8]) -> bool
    ensures { result ≡ list_all is_ascii_digit digits.now }
{
    digits.iter().all(|byte| byte.is_ascii_digit())
}
