//! Columns that are to be written.
use outside::Bytes;

/// How a column's values are spelled.
///
/// Source: Apache ORC specification v1, "Column Encodings".
#[derive(Clone, Copy)]
pub enum Spelling {
    /// DIRECT.
    Direct,
    /// DIRECT_V2.
    DirectV2,
    /// DICTIONARY_V2.
    DictionaryV2,
}

/// A column whose rows are written: BOOLEAN by `Direct`, SHORT, INT or LONG by `Direct` or `DirectV2`, or STRING by any.
#[derive(Drop)]
pub struct ColumnSpec {
    /// Its name.
    pub name: Bytes,
    /// The kind's number: 0 BOOLEAN, 2 SHORT, 3 INT, 4 LONG or 7 STRING.
    pub kind: u64,
    /// How its values are spelled.
    pub spelling: Spelling,
}
