//! Where words and texts in quotes end.

ghost use Rattle.std.specs.Prelude.{◌≡◌, ◌≤◌, length, IfOk, option_map};
ghost use Rattle.plan_words.specs.Words.{is_blank, skip_blanks, word_len, after_quote, text_at};

use std::alloc::{AllocFailed, Global};

/// Whether a byte parts words.
fn is_space(byte: u8) -> bool
    ensures { result ≡ is_blank byte }
{
    byte == b' ' || byte == b'\t'
}

/// What follows the blanks at the front.
pub(crate) fn after_blanks(left: &[u8]) -> &[u8]
    ensures { result.now ≡ skip_blanks left.now }
{
    let mut rest = left;
    while let Some((&byte, after)) = rest.split_first() {
        if !is_space(byte) {
            break;
        }
        rest = after;
    }
    rest
}

/// How long the word at the front is, in bytes.
pub(crate) fn word_length(left: &[u8]) -> usize
    ensures len { result ≡ word_len left.now }
    ensures within { result ≤ length left.now }
{
    let mut len = 0;
    let mut rest = left;
    while let Some((&byte, after)) = rest.split_first() {
        if is_space(byte) {
            break;
        }
        len += 1;
        rest = after;
    }
    len
}

/// What follows a quote at the front.
fn second_quote(left: &[u8]) -> Option<&[u8]>
    ensures { after_quote left.now ≡ option_map (λ x. x.now) result }
{
    let (&byte, rest) = left.split_first()?;
    if byte == b'\'' { Some(rest) } else { None }
}

/// The text behind an opening quote, up to the quote that closes it, and what follows that quote; None where no
/// quote closes it. Two quotes stand for one.
pub(crate) fn unquote(
    alloc: Global,
    left: &[u8],
) -> Result<Option<(Vec<u8>, &[u8])>, AllocFailed<u8>>
    ensures { IfOk result (λ o. text_at left.now ≡ option_map (λ x. (x.0.items, x.1.now)) o) }
{
    let mut text = Vec::new(alloc);
    let mut rest = left;
    while let Some((&byte, after)) = rest.split_first() {
        if byte != b'\'' {
            text.push(byte)?;
            rest = after;
            continue;
        }
        let Some(later) = second_quote(after) else {
            return Ok(Some((text, after)));
        };
        text.push(b'\'')?;
        rest = later;
    }
    Ok(None)
}
