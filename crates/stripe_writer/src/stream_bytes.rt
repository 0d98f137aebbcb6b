//! A stream of a stripe, with its bytes.
use outside::Bytes;

/// A stream that is to be written: what it holds of which column, and its bytes.
///
/// Source: Apache ORC specification v1, "Stripe Footer", `Stream`.
#[derive(Drop)]
pub struct StreamBytes {
    /// The kind's number: 0 PRESENT, 1 DATA, 2 LENGTH, 3 DICTIONARY_DATA, or another.
    pub kind: u64,
    /// The number of the column's type.
    pub column: u64,
    /// What it holds.
    pub bytes: Bytes,
}
