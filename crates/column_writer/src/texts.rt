//! Texts, as their lengths and their bytes.
ghost use Rattle.std.specs.Prelude.{◌≡◌, [], ◌∷◌, ◌++◌, length, map, pos, IfOk};
ghost use Rattle.std.specs.List.{concat};
ghost use Rattle.column_writer.specs.Encoded.{SpellTexts};

use crate::integers::integer_stream;
use orc_columns::Version;
use orc_values::Texts;
use outside::{Bytes, NoMemory};
use rle_writer::put;
use std::alloc::Global;

/// The streams of texts.
#[derive(Drop)]
pub(crate) struct TextStreams {
    /// The length of each, in bytes.
    pub(crate) lengths: Bytes,
    /// Their bytes, one text behind the other.
    pub(crate) bytes: Bytes,
}

/// The lengths of texts, and their bytes.
pub(crate) fn text_streams(
    alloc: Global,
    version: Version,
    texts: &Texts,
) -> Result<TextStreams, NoMemory>
    ensures { IfOk result (λ streams. SpellTexts version streams.lengths streams.bytes texts.now) }
{
    let lens = lengths_of(alloc, texts)?;
    let lengths = integer_stream(alloc, version, false, &lens)?;
    let bytes = joined(alloc, texts)?;
    Ok(TextStreams { lengths, bytes })
}

/// The length of each text, in bytes.
fn lengths_of(alloc: Global, texts: &Texts) -> Result<Vec<i64>, NoMemory>
    ensures { IfOk result (λ lens. lens.items ≡ map (λ text. pos (length text)) texts.now) }
{
    let mut lens = Vec::new(alloc);
    for i in 0..texts.len() {
        push_len(&mut lens, texts.get(i))?;
    }
    Ok(lens)
}

/// Adds the length of a text.
fn push_len(lens: &mut Vec<i64>, text: &[u8]) -> Result<(), NoMemory>
    ensures { IfOk result (λ done. lens.new.items ≡ lens.old.items ++ pos (length text.now) ∷ []) }
{
    let len = text.len() as i64;
    match lens.push(len) {
        Ok(()) => Ok(()),
        Err(_) => Err(NoMemory),
    }
}

/// The bytes of texts, one text behind the other.
fn joined(alloc: Global, texts: &Texts) -> Result<Bytes, NoMemory>
    ensures { IfOk result (λ bytes. bytes ≡ concat texts.now) }
{
    let mut bytes = Vec::new(alloc);
    for i in 0..texts.len() {
        put(&mut bytes, texts.get(i))?;
    }
    Ok(Bytes::new(bytes))
}
