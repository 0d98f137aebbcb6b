//! Messages of numbers alone, which take no memory: how each is read field by field.

ghost use Rattle.std.specs.Prelude.{◌≡◌, Ok};
ghost use Rattle.orc_proto.specs.Message.{Entry, entry_of};
ghost use Rattle.orc_proto.specs.Reading.{fields_of};
ghost use Rattle.orc_tail.specs.Reading.{fields_from};

use crate::fault::TailFault;
use orc_proto::{Field, Fields};

/// A message whose fields are read one after the other.
pub(crate) trait Message: Copy {
    // what a field makes of the message so far
    ghost with_field: { Self → Entry → Self };

    /// The message with one field more.
    fn with(self, field: &Field) -> Self
        ensures { result ≡ with_field self (entry_of field.now) };
}

/// Reads the fields of `bytes` into `start`; a later value takes the place of an earlier one.
///
/// Refuses bytes that are no message by `Wire` with their first fault.
pub(crate) fn read_message<M: Message>(start: M, bytes: &[u8]) -> Result<M, TailFault>
    ensures { result ≡ fields_from (λ s field. Ok (M.with_field s field)) start (fields_of bytes.now) }
{
    let mut message = start;
    let mut fields = Fields::new(bytes);
    while let Some(field) = fields.next() {
        let field = field?;
        message = message.with(&field);
    }
    Ok(message)
}
