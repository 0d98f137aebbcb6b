//! A stream as a stripe's footer tells it.

/// A stream of a stripe that is to be written: what it holds of which column, and how many bytes it has. Its place follows from
/// the streams before it.
///
/// Kinds: 0 PRESENT, 1 DATA, 2 LENGTH, 3 DICTIONARY_DATA, 4 DICTIONARY_COUNT, 5 SECONDARY, 6 ROW_INDEX, 7 BLOOM_FILTER,
/// 8 BLOOM_FILTER_UTF8.
///
/// Source: Apache ORC specification v1, "Stripe Footer".
#[derive(Clone, Copy, Debug, PartialEq, Eq)]
pub struct StreamPart {
    /// The kind's number.
    pub kind: u64,
    /// The number of the column's type.
    pub column: u64,
    /// Its bytes.
    pub len: u64,
}
