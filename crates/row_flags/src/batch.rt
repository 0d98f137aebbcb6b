//! How many rows a batch has.

/// The greatest number of rows of a batch, and of entries that are read at once.
pub const BATCH: usize = 1024;
