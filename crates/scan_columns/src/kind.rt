//! The kinds of columns that a scan reads.
ghost use Rattle.std.specs.Prelude.{◌≡◌};
ghost use Rattle.orc_columns.specs.Spelling.{is_integer_kind};
ghost use Rattle.scan_columns.specs.Kinds.{kind_number, kind_of_number};

/// A kind of column that a scan reads.
///
/// Source: Apache ORC specification v1, "Type Information".
#[derive(Clone, Copy)]
pub(crate) enum ReadKind {
    /// Truth values.
    Boolean,
    /// Numbers of 16 bits.
    Short,
    /// Numbers of 32 bits.
    Int,
    /// Numbers of 64 bits.
    Long,
    /// Texts.
    String,
}

/// The kind that has a file's number for it, if it is one that a scan reads.
pub(crate) fn read_kind(number: u64) -> Option<ReadKind>
    ensures { result ≡ kind_of_number number }
{
    match number {
        0 => Some(ReadKind::Boolean),
        2 => Some(ReadKind::Short),
        3 => Some(ReadKind::Int),
        4 => Some(ReadKind::Long),
        7 => Some(ReadKind::String),
        _ => None,
    }
}

impl ReadKind {
    /// Whether a column of the kind holds numbers.
    pub(crate) fn is_integer(self) -> bool
        ensures { result ≡ is_integer_kind (kind_number self) }
    {
        match self {
            ReadKind::Short | ReadKind::Int | ReadKind::Long => true,
            ReadKind::Boolean | ReadKind::String => false,
        }
    }
}
