//! Why bytes are no message.

/// The first fault of bytes that are no message, or no packed field.
///
/// It carries the offset of the key of the field that is broken, and in a packed field that of the number,
/// in bytes from the first byte of the slice that is read. Within one field the causes are judged in this
/// order: the key as a varint, its number, its wire type, the value.
///
/// Source: the protocol buffers' wire format; groups are refused, as this project's own rule.
#[derive(Clone, Copy, PartialEq, Eq)]
pub enum WireFault {
    /// The bytes end inside a key, a length, a varint or a value.
    Truncated(u64),
    /// Ten bytes of a varint all have their top bit set.
    LongVarint(u64),
    /// The wire type is 3 or 4, which are groups, or 6 or 7, which mean nothing.
    BadWireType(u64),
    /// The field's number is 0 or above 536,870,911.
    BadKey(u64),
}
