//! The types of a file's columns, as a footer spells them.

ghost use Rattle.std.specs.Prelude.{◌≡◌};
ghost use Rattle.orc_proto.specs.Message.{entry_of};
ghost use Rattle.orc_proto.specs.Reading.{numbers_of};
ghost use Rattle.orc_tail.specs.Reading.{Gives, numbers_from, behind};
ghost use Rattle.orc_tail.specs.Messages.{type_field, type_of};
ghost use Rattle.orc_tail.specs.Views.{type_view};

use crate::fault::TailFault;
use orc_proto::{Field, FieldValue, Fields, Packed};
use std::alloc::Global;

/// A type: its kind, and its children's type numbers and names. The names stay in the footer's bytes.
///
/// Source: Apache ORC specification v1, "Type Information".
#[derive(Drop)]
pub(crate) struct ColumnType<'a> {
    pub(crate) kind: u64,
    pub(crate) subtypes: Vec<u64>,
    pub(crate) names: Vec<&'a [u8]>,
}

/// Adds the numbers of a packed field to `into`, which after a refusal holds those before the fault.
fn take_numbers(into: &mut Vec<u64>, bytes: &[u8]) -> Result<(), TailFault>
    ensures { Gives (λ _. into.new.items) result (behind into.old.items (numbers_from (numbers_of bytes.now))) }
{
    let mut numbers = Packed::new(bytes);
    while let Some(number) = numbers.next() {
        let number = number?;
        into.push(number)?;
    }
    Ok(())
}

impl<'a> ColumnType<'a> {
    /// Takes one field more.
    fn take(&mut self, field: &Field<'a>) -> Result<(), TailFault>
        ensures { Gives (λ _. type_view self.new) result (type_field (type_view self.old) (entry_of field.now)) }
    {
        match (field.number, field.value) {
            (1, FieldValue::Varint(kind)) => self.kind = kind,
            (2, FieldValue::Varint(subtype)) => self.subtypes.push(subtype)?,
            (2, FieldValue::Bytes(packed)) => take_numbers(&mut self.subtypes, packed)?,
            (3, FieldValue::Bytes(name)) => self.names.push(name)?,
            _ => {}
        }
        Ok(())
    }
}

/// Reads one type of a footer.
#[tactic(auto, unfolding(crate::specs::Messages::type_of))]
pub(crate) fn read_type(alloc: Global, bytes: &[u8]) -> Result<ColumnType<'_>, TailFault>
    ensures { Gives type_view result (type_of bytes.now) }
{
    let mut found = ColumnType {
        kind: 0,
        subtypes: Vec::new(alloc),
        names: Vec::new(alloc),
    };
    let mut fields = Fields::new(bytes);
    while let Some(field) = fields.next() {
        let field = field?;
        found.take(&field)?;
    }
    Ok(found)
}
