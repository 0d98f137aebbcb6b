//! A type as a file's footer tells it.

/// A type that is to be written: its kind, and its children's type numbers and names.
///
/// Source: Apache ORC specification v1, "Type Information".
#[derive(Debug, Drop)]
pub struct FileType<'a> {
    /// The kind's number.
    pub kind: u64,
    /// The numbers of its children's types.
    pub subtypes: Vec<u64>,
    /// The names of its children, where it has names for them.
    pub names: Vec<&'a [u8]>,
}
