use buffer_pool::Pin;

/// Why a range isn't in the cache. Each cause carries the words that show it.
#[derive(Drop)]
pub enum Why {
    /// No arena has a free block of the order: the arenas' words, and all ones past the last arena.
    NoRoom { words: [u64; 64] },
    /// Another seat was quicker: the word with which an exchange came back, on an arena's word or on the header's state.
    Raced { saw: u64 },
    /// A way has the key, but its buffer can't be pinned now: its state word.
    Busy { word: u64 },
    /// No way of the set is released: the states of the ways.
    SetFull { states: [u64; 8] },
    /// Another seat has the policy. It doesn't come yet.
    PolicyOut,
}

/// What became of a range that was to be placed.
pub enum Placed {
    /// It is in the cache, and pinned.
    Filled(Pin),
    /// It isn't.
    Bypass(Why),
}
