//! A column of a table.
use column_writer::ColumnBuffer;
use outside::Bytes;
use tail_writer::FileColumn;

/// A top column of a table: what the file's footer says of it, and what a stripe holds of it.
#[derive(Drop)]
pub struct TableColumn {
    /// Its name, its kind, and the kinds of its children.
    pub column: FileColumn,
    /// What a stripe holds of it.
    pub content: Content,
}

/// What a stripe holds of a column.
#[derive(Drop)]
pub enum Content {
    /// Rows that are to be written, and how they are spelled.
    Written(ColumnBuffer),
    /// Streams that nobody reads, of the column and its children.
    Opaque(Vec<OpaqueStream>),
}

/// A stream that stands in every stripe, and that nobody reads.
///
/// Source: Apache ORC specification v1, "Stripe Footer", `Stream`.
#[derive(Drop)]
pub struct OpaqueStream {
    /// The kind's number.
    pub kind: u64,
    /// Whose it is: 0 of the column itself, i of its i-th child.
    pub child: u32,
    /// What it holds.
    pub bytes: Bytes,
}
