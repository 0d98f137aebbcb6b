//! The streams of a column.
ghost use Rattle.std.specs.Prelude.{◌≡◌, ◌≤◌, ◌^◌, ◌<◌, length, map, IfOk};
ghost use Rattle.orc_values.specs.declared.value.Value.{Value};
ghost use Rattle.orc_values.specs.declared.value.Value.TheVariants as value;
ghost use Rattle.orc_columns.specs.declared.spelling.Spelling.TheVariants as by;
ghost use Rattle.orc_columns.specs.Column.{ArePresent, AreValues};
ghost use Rattle.column_writer.specs.Encoded.{Spelled, spelling_in, values_in, streams_of};

use crate::dictionary::dictionary_of;
use crate::encoded::Encoded;
use crate::integers::integer_stream;
use crate::kept::Kept;
use crate::present::present_stream;
use crate::texts::text_streams;
use orc_columns::Version;
use orc_values::Texts;
use outside::{Bytes, NoMemory};
use rle_writer::write_bits;
use std::alloc::Global;

/// The streams of a column, from the flags that say which of its rows have a value, and these values in order.
///
/// A dictionary has its entries in the order of their first use. Answers `NoMemory` where memory was refused.
///
/// Source: Apache ORC specification v1, "Column Encodings".
pub fn encode(alloc: Global, flags: &[bool], kept: &Kept) -> Result<Encoded, NoMemory>
    requires { length (values_in kept.now) ≤ 2 ^ 32 }
    ensures { IfOk result (λ e. ArePresent e.present flags.now
        × AreValues (spelling_in kept.now) e.dictionary_size (streams_of e) (values_in kept.now)) }
{
    let present = present_stream(alloc, flags)?;
    encode_values(alloc, present, kept)
}

/// The streams of values, by their spelling.
fn encode_values(alloc: Global, present: Bytes, kept: &Kept) -> Result<Encoded, NoMemory>
    requires { length (values_in kept.now) ≤ 2 ^ 32 }
    ensures { IfOk result (λ e. Spelled e present (spelling_in kept.now) (values_in kept.now)) }
{
    match kept {
        Kept::Bits(bits) => encode_bits(alloc, present, bits),
        Kept::Integers(version, numbers) => encode_integers(alloc, present, *version, numbers),
        Kept::Strings(version, texts) => encode_strings(alloc, present, *version, texts),
        Kept::Dictionary(version, texts) => encode_dictionary(alloc, present, *version, texts),
    }
}

fn encode_bits(alloc: Global, present: Bytes, bits: &[bool]) -> Result<Encoded, NoMemory>
    ensures { IfOk result (λ e. Spelled e present by.Bits (map (λ b. value.Bool b) bits.now)) }
{
    let body = write_bits(alloc, bits)?;
    Ok(Encoded {
        present,
        body: Bytes::new(body),
        lengths: none(alloc),
        dictionary: none(alloc),
        dictionary_size: 0,
    })
}

fn encode_integers(
    alloc: Global,
    present: Bytes,
    version: Version,
    numbers: &[i64],
) -> Result<Encoded, NoMemory>
    ensures { IfOk result (λ e. Spelled e present (by.Integers version) (map (λ n. value.Int n) numbers.now)) }
{
    let body = integer_stream(alloc, version, true, numbers)?;
    Ok(Encoded {
        present,
        body,
        lengths: none(alloc),
        dictionary: none(alloc),
        dictionary_size: 0,
    })
}

fn encode_strings(
    alloc: Global,
    present: Bytes,
    version: Version,
    texts: &Texts,
) -> Result<Encoded, NoMemory>
    ensures { IfOk result (λ e. Spelled e present (by.Texts version) (map (λ t. value.Text t) texts.now)) }
{
    let streams = text_streams(alloc, version, texts)?;
    Ok(Encoded {
        present,
        body: streams.bytes,
        lengths: streams.lengths,
        dictionary: none(alloc),
        dictionary_size: 0,
    })
}

fn encode_dictionary(
    alloc: Global,
    present: Bytes,
    version: Version,
    texts: &Texts,
) -> Result<Encoded, NoMemory>
    requires { length texts.now ≤ 2 ^ 32 }
    ensures { IfOk result (λ e. Spelled e present (by.Dictionary version) (map (λ t. value.Text t) texts.now)) }
{
    let dictionary = dictionary_of(alloc, texts)?;
    let body = integer_stream(alloc, version, false, &dictionary.places)?;
    let dictionary_size = dictionary.entries.len() as u64;
    let streams = text_streams(alloc, version, &dictionary.entries)?;
    Ok(Encoded {
        present,
        body,
        lengths: streams.lengths,
        dictionary: streams.bytes,
        dictionary_size,
    })
}

/// A stream that isn't there.
fn none(alloc: Global) -> Bytes {
    Bytes::new(Vec::new(alloc))
}
