//! The atomic steps of a pool, by their kinds. No value of this type is ever made: it exists for contracts and proofs alone.

use crate::WordName;
use pool_model::{Block, BufferKey, Sequence};

/// An atomic step on one word, and the word that it found.
///
/// Headers and blocks are counted as in `WordName` and `Block`, cells over all minimum blocks.
#[derive(Drop)]
pub enum WordStep {
    /// A load.
    Looked {
        word: WordName,
        found: u64,
    },
    /// A load of a cell.
    LookedAtCell {
        cell: u64,
        found: u64,
    },
    /// An exchange that found another word than was expected.
    Missed {
        word: WordName,
        found: u64,
    },
    /// The exchange of an arena's word that takes a block.
    Granted {
        block: Block,
        found: u64,
    },
    /// The fetch_and that gives a block back.
    Returned {
        block: Block,
        found: u64,
    },
    /// The exchange of a released header's state that makes a new buffer of a granted block, which shows these cells.
    Opened {
        header: u32,
        block: Block,
        cells: Sequence<u64>,
    },
    /// The store of a new buffer's key.
    Named {
        header: u32,
        block: Block,
        key: BufferKey,
        found: u64,
    },
    /// The store of a new buffer's next cell, the one after the `done` cells that are filled.
    Filled {
        header: u32,
        block: Block,
        key: BufferKey,
        done: u32,
        value: u64,
        found: u64,
    },
    /// The fetch_add that makes a filled buffer live and pinned.
    Published {
        header: u32,
        block: Block,
        key: BufferKey,
        found: u64,
    },
    /// The fetch_add of a count: a pin of a live buffer, and else a bid.
    Counted {
        header: u32,
        found: u64,
    },
    /// The fetch_sub that takes back a pin or a bid.
    Uncounted {
        header: u32,
        found: u64,
    },
    /// The exchange of a live header's state, without a count, that makes its buffer evicted: the seat claims it.
    EvictBegun {
        header: u32,
        found: u64,
    },
    /// The fetch_add that releases the header of an evicted buffer: its block becomes a grant of the seat's.
    HeaderReleased {
        header: u32,
        block: Block,
        found: u64,
    },
    /// A change of a word that stands for nothing of the pool: touches or last tick of a header, or the clock.
    Updated {
        word: WordName,
        found: u64,
        left: u64,
    },
}
