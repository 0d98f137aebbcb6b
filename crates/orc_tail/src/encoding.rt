//! How a stripe's columns are spelled.

ghost use Rattle.std.specs.Prelude.{◌≡◌};
ghost use Rattle.orc_tail.specs.Messages.{encoding_value, encoding_of};
ghost use Rattle.orc_proto.specs.Message.{entry_of};

use crate::fault::TailFault;
use crate::message::{Message, read_message};
use orc_proto::{Field, FieldValue};
use std::marker::Model;

/// The encoding of a column: 0 DIRECT, 1 DICTIONARY, 2 DIRECT_V2, 3 DICTIONARY_V2.
///
/// Source: Apache ORC specification v1, "Stripe Footer", `ColumnEncoding`.
#[derive(Clone, Copy, PartialEq, Eq)]
pub struct Encoding {
    /// The encoding's number.
    pub kind: u64,
    /// The entries of the column's dictionary.
    pub dictionary_size: u64,
}

impl Message for Encoding {
    ghost with_field = { λ s field. encoding_value s field.number field.value };

    fn with(self, field: &Field) -> Encoding {
        match (field.number, field.value) {
            (1, FieldValue::Varint(kind)) => Encoding { kind, ..self },
            (2, FieldValue::Varint(dictionary_size)) => Encoding {
                dictionary_size,
                ..self
            },
            _ => self,
        }
    }
}

/// Reads one encoding of a stripe footer.
#[tactic(auto, unfolding(crate::specs::Messages::encoding_of))]
pub(crate) fn read_encoding(bytes: &[u8]) -> Result<Encoding, TailFault>
    ensures { result ≡ encoding_of bytes.now }
{
    let absent = Encoding {
        kind: 0,
        dictionary_size: 0,
    };
    read_message(absent, bytes)
}

/// The encodings of a stripe, that of type 0 first. A contract sees them as a list.
#[derive(Drop)]
pub struct Encodings {
    items: Vec<Encoding>,
}

impl Model for Encodings {
    ghost use Rattle.std.specs.Prelude.{List};
    ghost use Rattle.orc_tail.specs.declared.encoding.Encoding.{Encoding};

    ghost Value = { List Encoding };

    ghost view = { λ encodings. encodings.items.items };
}

impl Encodings {
    /// The encodings of the list `items`.
    pub fn new(items: Vec<Encoding>) -> Encodings
        ensures { result ≡ items.items }
    {
        Encodings { items }
    }

    /// Lends the encodings.
    pub fn as_slice(&self) -> &[Encoding]
        ensures { result.now ≡ self.now }
    {
        self.items.as_slice()
    }

    /// Gives the list back.
    pub fn into_vec(self) -> Vec<Encoding>
        ensures { result.items ≡ self }
    {
        let Encodings { items } = self;
        items
    }
}
