//! A column of a file that is to be written.

use outside::Bytes;

/// A column of a file's rows: its name, its kind, and the kinds of its children, which have no children of their own.
///
/// Kinds: 0 BOOLEAN, 1 BYTE, 2 SHORT, 3 INT, 4 LONG, 5 FLOAT, 6 DOUBLE, 7 STRING, 8 BINARY, 9 TIMESTAMP, 10 LIST, 11 MAP,
/// 12 STRUCT, 13 UNION, 14 DECIMAL, 15 DATE, 16 VARCHAR, 17 CHAR; others may stand.
///
/// Source: Apache ORC specification v1, "Type Information".
#[derive(Debug, Drop)]
pub struct FileColumn {
    /// Its name.
    pub name: Bytes,
    /// The kind's number.
    pub kind: u64,
    /// The kinds of its children.
    pub children: Vec<u64>,
}
