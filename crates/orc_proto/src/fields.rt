//! The fields of a message, one after the other.

ghost use Rattle.std.specs.Prelude.{◌≡◌};
ghost use Rattle.orc_proto.specs.Message.{entry_of};
ghost use Rattle.orc_proto.specs.Reading.{fields_of, Pops};

use crate::fault::WireFault;
use crate::field::Field;
use crate::reading::read_field;
use std::marker::Model;

/// The fields of a message that are still to come.
///
/// A contract sees it as the list of the answers that `next` is still to give: fields, and a fault as the
/// last one where the bytes are no message.
///
/// Source: the protobuf wire format, "Message Structure".
#[derive(Drop)]
pub struct Fields<'a> {
    rest: &'a [u8],
    total: usize,
}

impl<'a> Model for Fields<'a> {
    ghost use Rattle.std.specs.Prelude.{List, Result, length, ◌≤◌};
    ghost use Rattle.orc_proto.specs.declared.fault.WireFault.{WireFault};
    ghost use Rattle.orc_proto.specs.Message.{Entry};
    ghost use Rattle.orc_proto.specs.Reading.{fields_left};

    ghost Value = { List (Result Entry WireFault) };

    ghost view = { λ f. fields_left f.total f.rest.now };

    ghost invariant = { λ f. length f.rest.now ≤ f.total };
}

impl<'a> Fields<'a> {
    /// The fields of the message `bytes`.
    pub fn new(bytes: &'a [u8]) -> Fields<'a>
        ensures { result ≡ fields_of bytes.now }
    {
        Fields {
            rest: bytes,
            total: bytes.len(),
        }
    }

    /// The next field, or None at the end.
    ///
    /// A fault is the last answer: it says why the bytes are no message, and carries the offset of the key at
    /// which they break, in bytes from the message's first byte. From then on every answer is None.
    pub fn next(&mut self) -> Option<Result<Field<'a>, WireFault>>
        ensures { Pops entry_of result self.old self.new }
    {
        if self.rest.is_empty() {
            return None;
        }
        let offset = (self.total - self.rest.len()) as u64;
        match read_field(offset, self.rest) {
            Ok((field, rest)) => {
                self.rest = rest;
                Some(Ok(field))
            }
            Err(fault) => {
                self.rest = &[];
                Some(Err(fault))
            }
        }
    }
}
