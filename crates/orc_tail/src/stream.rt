//! Where a stripe's streams lie.

ghost use Rattle.std.specs.Prelude.{◌≡◌};
ghost use Rattle.orc_tail.specs.Messages.{stream_value, stream_of};
ghost use Rattle.orc_proto.specs.Message.{entry_of};

use crate::fault::TailFault;
use crate::message::{Message, read_message};
use orc_proto::{Field, FieldValue};
use std::marker::Model;

/// A stream as a stripe footer spells it, whose offset follows from the streams before it.
///
/// Source: Apache ORC specification v1, "Stripe Footer", `Stream`.
#[derive(Clone, Copy)]
pub(crate) struct Stream {
    pub(crate) kind: u64,
    pub(crate) column: u64,
    pub(crate) len: u64,
}

impl Message for Stream {
    ghost with_field = { λ s field. stream_value s field.number field.value };

    fn with(self, field: &Field) -> Stream {
        let FieldValue::Varint(number) = field.value else {
            return self;
        };
        match field.number {
            1 => Stream {
                kind: number,
                ..self
            },
            2 => Stream {
                column: number,
                ..self
            },
            3 => Stream {
                len: number,
                ..self
            },
            _ => self,
        }
    }
}

/// Reads one stream of a stripe footer.
#[tactic(auto, unfolding(crate::specs::Messages::stream_of))]
pub(crate) fn read_stream(bytes: &[u8]) -> Result<Stream, TailFault>
    ensures { result ≡ stream_of bytes.now }
{
    let absent = Stream {
        kind: 0,
        column: 0,
        len: 0,
    };
    read_message(absent, bytes)
}

/// A stream of a stripe: what it holds of which column, and where it lies.
///
/// Kinds: 0 PRESENT, 1 DATA, 2 LENGTH, 3 DICTIONARY_DATA, 4 DICTIONARY_COUNT, 5 SECONDARY, 6 ROW_INDEX,
/// 7 BLOOM_FILTER, 8 BLOOM_FILTER_UTF8.
///
/// Source: Apache ORC specification v1, "Stripe Footer".
#[derive(Clone, Copy, PartialEq, Eq)]
pub struct StreamRange {
    /// The kind's number.
    pub kind: u64,
    /// The number of the column's type.
    pub column: u64,
    /// The offset of its first byte, counted from the file's first byte.
    pub at: u64,
    /// Its bytes.
    pub len: u64,
}

/// The streams of a stripe, in the order in which they lie. A contract sees them as a list.
#[derive(Drop)]
pub struct Streams {
    items: Vec<StreamRange>,
}

impl Model for Streams {
    ghost use Rattle.std.specs.Prelude.{List};
    ghost use Rattle.orc_tail.specs.declared.stream.StreamRange.{StreamRange};

    ghost Value = { List StreamRange };

    ghost view = { λ streams. streams.items.items };
}

impl Streams {
    /// The streams of the list `items`.
    pub fn new(items: Vec<StreamRange>) -> Streams
        ensures { result ≡ items.items }
    {
        Streams { items }
    }

    /// Lends the streams.
    pub fn as_slice(&self) -> &[StreamRange]
        ensures { result.now ≡ self.now }
    {
        self.items.as_slice()
    }

    /// Gives the list back.
    pub fn into_vec(self) -> Vec<StreamRange>
        ensures { result.items ≡ self }
    {
        let Streams { items } = self;
        items
    }
}
