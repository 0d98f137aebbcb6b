//! Where a file's stripes lie.

ghost use Rattle.std.specs.Prelude.{◌≡◌};
ghost use Rattle.orc_tail.specs.Messages.{stripe_value, stripe_of};
ghost use Rattle.orc_proto.specs.Message.{entry_of};

use crate::fault::TailFault;
use crate::message::{Message, read_message};
use orc_proto::{Field, FieldValue};
use std::marker::Model;

/// Where a stripe lies, in bytes counted from the file's first byte, and how many rows it has.
///
/// Its index, its data and its footer follow each other.
///
/// Source: Apache ORC specification v1, "Stripe Information".
#[derive(Clone, Copy, Debug, PartialEq, Eq)]
pub struct Stripe {
    /// The offset of its first byte.
    pub at: u64,
    /// The bytes of its index.
    pub index_len: u64,
    /// The bytes of its data.
    pub body_len: u64,
    /// The bytes of its footer.
    pub footer_len: u64,
    /// Its rows.
    pub rows: u64,
}

impl Message for Stripe {
    ghost with_field = { λ s field. stripe_value s field.number field.value };

    fn with(self, field: &Field) -> Stripe {
        let FieldValue::Varint(number) = field.value else {
            return self;
        };
        match field.number {
            1 => Stripe { at: number, ..self },
            2 => Stripe {
                index_len: number,
                ..self
            },
            3 => Stripe {
                body_len: number,
                ..self
            },
            4 => Stripe {
                footer_len: number,
                ..self
            },
            5 => Stripe {
                rows: number,
                ..self
            },
            _ => self,
        }
    }
}

/// Reads one stripe of a footer.
#[tactic(auto, unfolding(crate::specs::Messages::stripe_of))]
pub(crate) fn read_stripe(bytes: &[u8]) -> Result<Stripe, TailFault>
    ensures { result ≡ stripe_of bytes.now }
{
    let absent = Stripe {
        at: 0,
        index_len: 0,
        body_len: 0,
        footer_len: 0,
        rows: 0,
    };
    read_message(absent, bytes)
}

/// The stripes of a file, in order. A contract sees them as a list.
#[derive(Drop)]
pub struct Stripes {
    items: Vec<Stripe>,
}

impl Model for Stripes {
    ghost use Rattle.std.specs.Prelude.{List};
    ghost use Rattle.orc_tail.specs.declared.stripe.Stripe.{Stripe};

    ghost Value = { List Stripe };

    ghost view = { λ stripes. stripes.items.items };
}

impl Stripes {
    /// The stripes of the list `items`.
    pub fn new(items: Vec<Stripe>) -> Stripes
        ensures { result ≡ items.items }
    {
        Stripes { items }
    }

    /// Lends the stripes.
    pub fn as_slice(&self) -> &[Stripe]
        ensures { result.now ≡ self.now }
    {
        self.items.as_slice()
    }

    /// Gives the list back.
    pub fn into_vec(self) -> Vec<Stripe>
        ensures { result.items ≡ self }
    {
        let Stripes { items } = self;
        items
    }
}
