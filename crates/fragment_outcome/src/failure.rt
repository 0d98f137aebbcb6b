//! Why a fragment has no answer.
use orc_columns::ColumnFault;
use orc_tail::TailFault;
use outside::Bytes;

/// Why a fragment has no answer.
///
/// For a scan they are judged in this order: the file, its tail, missing columns and then columns of a wrong kind, both as the line
/// first names them, the least stripe that fails with its footer before its columns by ascending number, and a total that
/// leaves 64 bits. For a merge it is the first failed source of its line, and then a total that leaves 64 bits.
#[derive(Drop)]
pub enum Failure {
    /// No file has the name.
    NoFile,
    /// The file is compressed, in the way of this number.
    Compressed(u64),
    /// The file's tail is refused, by another fault than its compression.
    BrokenTail(TailFault),
    /// The footer of a stripe is refused.
    BrokenFooter {
        /// The stripe's number, from 0 on.
        stripe: u32,
        /// Why it is refused.
        fault: TailFault,
    },
    /// A column is refused in a stripe.
    BrokenColumn {
        /// The stripe's number, from 0 on.
        stripe: u32,
        /// The number of the column's type.
        column: u32,
        /// Why it is refused.
        fault: ColumnFault,
    },
    /// The file has no column of this name.
    NoColumn(Bytes),
    /// The column of this name is of another kind than is asked for.
    WrongKind(Bytes),
    /// A total isn't in the 64 bits of `i64`.
    Overflow,
    /// A source of the merge has no answer: the fragment of this number.
    SourceFailed(u32),
    /// A read of the file failed.
    ReadFault,
}
