//! What has to be known of a column of a stripe before it is read.

/// A column of one stripe: its kind and encoding, and which streams of a feed hold it.
///
/// Kinds: 0 BOOLEAN, 2 SHORT, 3 INT, 4 LONG, 7 STRING. Encodings: 0 DIRECT, 1 DICTIONARY, 2 DIRECT_V2,
/// 3 DICTIONARY_V2. A stream that the stripe hasn't is None, and is read as an empty one.
///
/// Source: Apache ORC specification v1, "Column Encodings".
#[derive(Clone, Copy)]
pub struct ColumnPlan {
    /// The number of the column's kind.
    pub kind: u64,
    /// The number of its encoding, where the stripe's footer has one for it.
    pub encoding: Option<u64>,
    /// How many entries its dictionary has.
    pub dictionary_size: u64,
    /// The stream PRESENT, which says which rows aren't null.
    pub present: Option<u32>,
    /// The stream DATA.
    pub body: Option<u32>,
    /// The stream LENGTH, with the lengths of texts in bytes.
    pub length: Option<u32>,
    /// The stream DICTIONARY_DATA, with the texts of the dictionary.
    pub dictionary: Option<u32>,
    /// The length of DATA in bytes.
    pub body_len: u64,
    /// The length of DICTIONARY_DATA in bytes.
    pub dictionary_len: u64,
}
