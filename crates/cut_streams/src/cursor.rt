//! Where a stream stands.

use outside::FileRange;

/// A stream of a range of a file, and how many of its bytes were taken.
#[derive(Clone, Copy)]
pub struct Cursor {
    /// The range.
    pub range: FileRange,
    /// How many of its bytes were taken.
    pub taken: u64,
}
