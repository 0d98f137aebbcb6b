use crate::token::Grant;

/// Why a pool wasn't made.
#[derive(Clone, Copy, Debug, PartialEq, Eq)]
pub enum OpenFault {
    /// A size, or the number of seats, is out of its range.
    BadGeometry,
    /// There was no memory for the words.
    NoMemory,
}

/// A header's state wasn't that of a released header without a count, so it wasn't opened.
pub struct Lost {
    /// The word as the exchange found it.
    pub saw: u64,
    /// The block, which is still the seat's.
    pub grant: Grant,
}

/// Why a buffer wasn't pinned.
#[derive(Clone, Copy, Debug, PartialEq, Eq)]
pub enum NotPinned {
    /// The header's word, which isn't that of a live buffer.
    Busy { word: u64 },
    /// The header's key word, which is that of another key.
    Other { key: u64 },
}

/// A header's buffer wasn't evicted.
#[derive(Clone, Copy, Debug, PartialEq, Eq)]
pub struct Held {
    /// The header's word, which isn't that of a live buffer without a count, or had changed since it was looked at.
    pub word: u64,
}
