//! Where the streams of a column lie in a stripe.
ghost use Rattle.std.specs.Prelude.{◌≡◌, ◌<◌, map, slice_get, IfOk};
ghost use Rattle.orc_columns.specs.Draws.{StreamsDiffer};
ghost use Rattle.orc_streams.specs.Layout.{kinds_used, span_of, stored, encoding_kind, number_at, span_len, layout_in, plan_at};

use orc_columns::{ColumnPlan, Spelling, spelling_of};
use orc_tail::{Encoding, StripeFooter, stream_of};
use outside::NoMemory;
use std::alloc::Global;

/// The numbers of the kinds of streams that spell a column's rows.
const PRESENT: u64 = 0;

const DATA: u64 = 1;

const LENGTH: u64 = 2;

const DICTIONARY_DATA: u64 = 3;

/// A column of a file's rows that is read.
#[derive(Clone, Copy)]
pub struct ReadColumn {
    /// The number of its type.
    pub number: u32,
    /// The number of its type's kind.
    pub kind: u64,
}

/// A range of a file, in bytes counted from the file's first.
#[derive(Clone, Copy)]
pub struct Span {
    /// The offset of its first byte.
    pub at: u64,
    /// Its bytes.
    pub len: u64,
}

/// What the footer of a stripe says of a column: how it is spelled, and where the streams lie that its spelling uses.
///
/// A stream stands here only where it has bytes: one that the stripe lacks, that is empty, or that the spelling doesn't use is None.
///
/// Source: Apache ORC specification v1, "Stripe Footer" and "Column Encodings".
#[derive(Clone, Copy)]
pub struct ColumnLayout {
    /// The number of the column's kind.
    pub kind: u64,
    /// Its encoding, where the footer has one for it.
    pub encoding: Option<Encoding>,
    /// Where PRESENT lies.
    pub present: Option<Span>,
    /// Where DATA lies.
    pub body: Option<Span>,
    /// Where LENGTH lies.
    pub length: Option<Span>,
    /// Where DICTIONARY_DATA lies.
    pub dictionary: Option<Span>,
}

/// How many kinds of streams a spelling uses, counted from PRESENT on.
fn count_of_kinds(spelling: Option<Spelling>) -> u64
    ensures { result ≡ kinds_used spelling }
{
    match spelling {
        None => 0,
        Some(Spelling::Bits) => 2,
        Some(Spelling::Integers(_)) => 2,
        Some(Spelling::Texts(_)) => 3,
        Some(Spelling::Dictionary(_)) => 4,
    }
}

/// Where the first stream of that kind and column lies, if the kind is one of so many and the stream has bytes.
fn stored_span(footer: &StripeFooter, column: u32, kinds: u64, kind: u64) -> Option<Span>
    ensures { result ≡ stored footer.now column kinds kind }
{
    if kind >= kinds {
        return None;
    }
    let stream = stream_of(footer, kind, u64::from(column))?;
    if stream.len == 0 {
        return None;
    }
    Some(Span {
        at: stream.at,
        len: stream.len,
    })
}

/// The number of an encoding, where there is one.
fn kind_of(encoding: Option<Encoding>) -> Option<u64>
    ensures { result ≡ encoding_kind encoding }
{
    match encoding {
        Some(encoding) => Some(encoding.kind),
        None => None,
    }
}

/// The encoding of the column of that type, where the footer has one for it.
fn encoding_of(footer: &StripeFooter, column: u32) -> Option<Encoding>
    ensures { result ≡ slice_get footer.now.encodings column }
{
    footer.encodings.as_slice().get(column as usize).copied()
}

/// What the footer of a stripe says of a column.
///
/// Of two streams of one kind and column the first counts.
///
/// Source: Apache ORC specification v1, "Stripe Footer" and "Column Encodings".
pub fn layout_of(footer: &StripeFooter, column: ReadColumn) -> ColumnLayout
    ensures { result ≡ layout_in footer.now column }
{
    let encoding = encoding_of(footer, column.number);
    let kinds = count_of_kinds(spelling_of(column.kind, kind_of(encoding)));
    ColumnLayout {
        kind: column.kind,
        encoding,
        present: stored_span(footer, column.number, kinds, PRESENT),
        body: stored_span(footer, column.number, kinds, DATA),
        length: stored_span(footer, column.number, kinds, LENGTH),
        dictionary: stored_span(footer, column.number, kinds, DICTIONARY_DATA),
    }
}

/// What the footer of a stripe says of each of these columns, in their order.
///
/// Refuses only for want of memory.
pub fn layouts_of(
    alloc: Global,
    footer: &StripeFooter,
    columns: &[ReadColumn],
) -> Result<Vec<ColumnLayout>, NoMemory>
    ensures { IfOk result (λ layouts. layouts.items ≡ map (layout_in footer.now) columns.now) }
{
    let mut layouts = Vec::new(alloc);
    for column in columns {
        let Ok(()) = layouts.push(layout_of(footer, *column)) else {
            return Err(NoMemory);
        };
    }
    Ok(layouts)
}

/// The number of a stream, where it is there.
fn numbered(span: Option<Span>, number: u32) -> Option<u32>
    ensures { result ≡ number_at number span }
{
    match span {
        Some(_) => Some(number),
        None => None,
    }
}

/// The bytes of a stream; one that isn't there has none.
fn len_of(span: Option<Span>) -> u64
    ensures { result ≡ span_len span }
{
    match span {
        Some(span) => span.len,
        None => 0,
    }
}

impl ColumnLayout {
    /// How the column is read from a feed, as the column of that index among the columns that are read, counted from 0.
    ///
    /// There are at most 16. The column of index i has the streams 4·i PRESENT, 4·i + 1 DATA, 4·i + 2 LENGTH and 4·i + 3
    /// DICTIONARY_DATA, where they are there.
    pub fn plan(self, index: u32) -> ColumnPlan
        requires few { index < 16 }
        ensures exact { result ≡ plan_at index self }
        ensures differ { StreamsDiffer result }
    {
        let (encoding, dictionary_size) = match self.encoding {
            Some(encoding) => (Some(encoding.kind), encoding.dictionary_size),
            None => (None, 0),
        };
        let first = 4 * index;
        ColumnPlan {
            kind: self.kind,
            encoding,
            dictionary_size,
            present: numbered(self.present, first),
            body: numbered(self.body, first + 1),
            length: numbered(self.length, first + 2),
            dictionary: numbered(self.dictionary, first + 3),
            body_len: len_of(self.body),
            dictionary_len: len_of(self.dictionary),
        }
    }
}
