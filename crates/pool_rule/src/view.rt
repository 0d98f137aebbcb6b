//! What a seat knows. No value of these types is ever made: they exist for contracts and proofs alone.

use crate::Geometry;
use atomic_table::Seat;
use pool_model::{Block, BufferKey, Sequence, Step};

/// What a seat has of a header's count.
#[derive(Drop)]
pub enum Hold {
    /// Nothing.
    Free,
    /// A count that holds nothing, to be taken back.
    Bid,
    /// A hold of the buffer: its block, and its key once that is known.
    Pinned {
        block: Block,
        key: Option<BufferKey>,
    },
}

/// What a seat has for itself of a header.
#[derive(Drop)]
pub enum Claim {
    /// Nothing.
    Unclaimed,
    /// A new buffer: its block, its key once that is stored, and how many cells are filled.
    Fresh {
        block: Block,
        key: Option<BufferKey>,
        done: u32,
    },
    /// An evicted buffer: its block.
    Gone {
        block: Block,
    },
    /// A buffer that moves: its block, its target, its key once that is known, how many cells are copied, and the
    /// next cell of the block once that is loaded.
    Carried {
        block: Block,
        target: Block,
        key: Option<BufferKey>,
        done: u32,
        next: Option<u64>,
    },
}

/// What a seat has of one header.
#[derive(Drop)]
pub struct Mark {
    pub hold: Hold,
    pub claim: Claim,
}

/// How a seat came to the old value of a word.
#[derive(Drop)]
pub enum Access {
    /// The word was read, and is as it was.
    Loaded,
    /// An exchange found the word that was expected, and put another in its place.
    Exchanged,
    /// An exchange found another word than was expected, which is as it was.
    Failed,
    /// The word was changed, whatever it was.
    Changed,
}

/// A step of a seat, as its trail keeps it.
#[derive(Drop)]
pub enum Event {
    /// A step on the word of that index, with the word before and after.
    Stepped {
        word: u64,
        old: u64,
        new: u64,
        access: Access,
    },
    /// The seat gave away its last numbers, so many of them.
    Parted {
        numbers: u32,
    },
    /// The seat took in another's numbers.
    Joined,
}

/// What a seat knows of the pool, and what it has of it.
#[derive(Drop)]
pub struct View {
    pub geometry: Geometry,
    /// The seat's numbers. A seat without any is spent.
    pub numbers: Sequence<u32>,
    /// What the seat has of each header.
    pub marks: Sequence<Mark>,
    /// The order of the granted block that begins at each place, if one does.
    pub granted: Sequence<Option<u32>>,
    /// The words, if the seat has had all numbers since the pool was made.
    pub known: Option<Sequence<u64>>,
    /// The seat's own steps, the first one first.
    pub trail: Sequence<Event>,
    /// The steps of the pool that the seat made, the first one first.
    pub steps: Sequence<Step>,
}

/// A seat of a pool's table. It has no bytes, and a view of what it knows and has.
pub type TableSeat = Seat<(), View>;
