/// A file of the run, as a store names it.
#[derive(Clone, Copy, Debug, PartialEq, Eq)]
pub struct FileRef {
    /// The file's index among the files of the run, counted from 0.
    pub number: u32,
    /// Its length in bytes.
    pub len: u64,
}

/// A range of a file.
#[derive(Clone, Copy, Debug, PartialEq, Eq)]
pub struct FileRange {
    /// The file's number.
    pub file: u32,
    /// Where the range begins, in bytes from the file's first.
    pub at: u64,
    /// Its length in bytes.
    pub len: u64,
}
