//! What the policy knows of a header's buffer.

/// The key of a header's buffer, and how often and how lately it was touched.
#[derive(Clone, Copy)]
pub struct Entry {
    /// The buffer's key, as its word packs it.
    pub key: u64,
    /// The touches, 2^32 each, halved for each half-life that ended since: at most 2^63.
    pub s: u64,
    /// How many half-lives had ended at the last touch.
    pub e: u64,
    /// The tick of the last touch.
    pub last: u64,
}
