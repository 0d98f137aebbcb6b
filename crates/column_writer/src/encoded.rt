//! The streams of a column of one stripe.
use outside::Bytes;

/// The bytes of a column's streams; one that the column hasn't has none.
///
/// Source: Apache ORC specification v1, "Column Encodings".
#[derive(Drop)]
pub struct Encoded {
    /// PRESENT, without a byte where no row is null.
    pub present: Bytes,
    /// DATA.
    pub body: Bytes,
    /// LENGTH.
    pub lengths: Bytes,
    /// DICTIONARY_DATA.
    pub dictionary: Bytes,
    /// How many entries the dictionary has.
    pub dictionary_size: u64,
}
