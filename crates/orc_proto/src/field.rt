//! A field of a message.

/// A field's value, as its wire type says.
#[derive(Clone, Copy, PartialEq, Eq)]
pub enum FieldValue<'a> {
    /// Wire type 0: a varint's low 64 bits.
    Varint(u64),
    /// Wire type 1: eight bytes.
    Eight([u8; 8]),
    /// Wire type 2: bytes behind their length, as a text, a nested message or a packed field.
    Bytes(&'a [u8]),
    /// Wire type 5: four bytes.
    Four([u8; 4]),
}

/// A field of a message: its number, 1 to 536,870,911, and its value.
#[derive(Clone, Copy, PartialEq, Eq)]
pub struct Field<'a> {
    /// The number by which the message's schema names the field.
    pub number: u32,
    /// What it holds.
    pub value: FieldValue<'a>,
}
