//! The numbers of a packed field, one after the other.

ghost use Rattle.std.specs.Prelude.{◌≡◌};
ghost use Rattle.orc_proto.specs.Reading.{numbers_of, Pops};

use crate::fault::WireFault;
use crate::varint::read_varint;
use std::marker::Model;

/// The numbers of a packed field that are still to come.
///
/// A contract sees it as the list of the answers that `next` is still to give: numbers, and a fault as the
/// last one where the bytes are no varints.
///
/// Source: the protobuf wire format, "Base 128 Varints".
#[derive(Drop)]
pub struct Packed<'a> {
    rest: &'a [u8],
    total: usize,
}

impl<'a> Model for Packed<'a> {
    ghost use Rattle.std.specs.Prelude.{ℕ, List, Result, length, ◌≤◌};
    ghost use Rattle.orc_proto.specs.declared.fault.WireFault.{WireFault};
    ghost use Rattle.orc_proto.specs.Reading.{numbers_left};

    ghost Value = { List (Result ℕ WireFault) };

    ghost view = { λ p. numbers_left p.total p.rest.now };

    ghost invariant = { λ p. length p.rest.now ≤ p.total };
}

impl<'a> Packed<'a> {
    /// The numbers of the packed field whose value is `bytes`.
    pub fn new(bytes: &'a [u8]) -> Packed<'a>
        ensures { result ≡ numbers_of bytes.now }
    {
        Packed {
            rest: bytes,
            total: bytes.len(),
        }
    }

    /// The next number, or None at the end.
    ///
    /// A fault, `Truncated` or `LongVarint`, is the last answer, and carries the offset of the number that
    /// isn't whole, in bytes from the field's first byte. From then on every answer is None.
    pub fn next(&mut self) -> Option<Result<u64, WireFault>>
        ensures { Pops (λ n. n) result self.old self.new }
    {
        if self.rest.is_empty() {
            return None;
        }
        let offset = (self.total - self.rest.len()) as u64;
        match read_varint(offset, self.rest) {
            Ok((number, rest)) => {
                self.rest = rest;
                Some(Ok(number))
            }
            Err(fault) => {
                self.rest = &[];
                Some(Err(fault))
            }
        }
    }
}
