//! Reading a line from left to right: each reader answers what it read and the bytes that are left, or the
//! line's first fault.

ghost use Rattle.std.specs.Prelude.{◌≡◌, true, Ok, IfOk};
ghost use Rattle.plan_words.specs.Pieces.{pieces_of};
ghost use Rattle.plan_words.specs.Names.{is_name, all_names};
ghost use Rattle.plan_words.specs.Reading.{word, keyword, option, name, file_name, name_list, end_of_line};
ghost use Rattle.plan_words.specs.Steps.{Gives};

use crate::fault::PlanKind;
use crate::names::{is_file_name, is_name};
use crate::pieces::Pieces;
use crate::words::{after_blanks, word_length};

/// The next word. Refuses as a bad word where none is left.
#[tactic(auto, unfolding(crate::specs::Reading::word))]
pub fn read_word(left: &[u8]) -> Result<(&[u8], &[u8]), PlanKind>
    ensures { Gives (λ x. (x.0.now, x.1.now)) result (word left.now) }
{
    let here = after_blanks(left);
    let len = word_length(here);
    if len == 0 {
        return Err(PlanKind::BadWord);
    }
    Ok(here.split_at(len))
}

/// A word of the grammar. Refuses as a bad word where another stands there, or none.
#[tactic(auto, unfolding(crate::specs::Reading::keyword))]
pub fn read_keyword<'a>(which: &[u8], left: &'a [u8]) -> Result<&'a [u8], PlanKind>
    ensures { Gives (λ rest. (which.now, rest.now)) result (keyword which.now left.now) }
{
    let (found, rest) = read_word(left)?;
    if found != which {
        return Err(PlanKind::BadWord);
    }
    Ok(rest)
}

/// Whether this word of the grammar comes next, and what is left: all, where it doesn't.
#[tactic(auto, unfolding(crate::specs::Reading::option))]
pub fn read_option<'a>(which: &[u8], left: &'a [u8]) -> (bool, &'a [u8])
    ensures { option which.now left.now ≡ Ok (result.0, result.1.now) }
{
    let here = after_blanks(left);
    let (found, rest) = here.split_at(word_length(here));
    if found == which {
        (true, rest)
    } else {
        (false, left)
    }
}

/// The name of a fragment or a column. Refuses as a bad word where none is left, else as a bad name.
#[tactic(auto, unfolding(crate::specs::Reading::name))]
pub fn read_name(left: &[u8]) -> Result<(&[u8], &[u8]), PlanKind>
    ensures read { Gives (λ x. (x.0.now, x.1.now)) result (name left.now) }
    ensures rule { IfOk result (λ x. is_name x.0.now ≡ true) }
{
    let (found, rest) = read_word(left)?;
    if !is_name(found) {
        return Err(PlanKind::BadName);
    }
    Ok((found, rest))
}

/// The name of a file. Refuses as a bad word where none is left, else as a bad name.
#[tactic(auto, unfolding(crate::specs::Reading::file_name))]
pub fn read_file_name(left: &[u8]) -> Result<(&[u8], &[u8]), PlanKind>
    ensures read { Gives (λ x. (x.0.now, x.1.now)) result (file_name left.now) }
    ensures rule { IfOk result (λ x. is_name x.0.now ≡ true) }
{
    let (found, rest) = read_word(left)?;
    if !is_file_name(found) {
        return Err(PlanKind::BadName);
    }
    Ok((found, rest))
}

/// Whether each piece is a name.
fn are_names(list: &[u8]) -> bool
    ensures { result ≡ all_names (pieces_of 44 list.now) }
{
    let mut pieces = Pieces::new(b',', list);
    while let Some(piece) = pieces.next() {
        if !is_name(piece) {
            return false;
        }
    }
    true
}

/// A list of names, joined by commas, as one word.
///
/// Refuses as a bad word where none is left, and as a bad name where one of its pieces breaks the rule.
#[tactic(auto, unfolding(crate::specs::Reading::name_list))]
pub fn read_name_list(left: &[u8]) -> Result<(&[u8], &[u8]), PlanKind>
    ensures read { Gives (λ x. (pieces_of 44 x.0.now, x.1.now)) result (name_list left.now) }
    ensures rule { IfOk result (λ x. all_names (pieces_of 44 x.0.now) ≡ true) }
{
    let (found, rest) = read_word(left)?;
    if !are_names(found) {
        return Err(PlanKind::BadName);
    }
    Ok((found, rest))
}

/// The end of the line. Refuses as a bad word where a word is left.
#[tactic(auto, unfolding(crate::specs::Reading::end_of_line))]
pub fn read_end(left: &[u8]) -> Result<(), PlanKind>
    ensures { Gives (λ _. (tt, left.now)) result (end_of_line left.now) }
{
    if !after_blanks(left).is_empty() {
        return Err(PlanKind::BadWord);
    }
    Ok(())
}
