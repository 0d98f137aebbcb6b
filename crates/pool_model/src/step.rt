use crate::{Block, BufferKey, Sequence};

/// A step of the pool, with the seat that makes it.
#[derive(Drop)]
pub enum Step {
    /// Takes a free block.
    Grant {
        seat: u32,
        block: Block,
    },
    /// Gives a granted block back.
    Ungrant {
        seat: u32,
        block: Block,
    },
    /// Makes a buffer of a granted block, whose cells may hold anything.
    Open {
        seat: u32,
        header: u32,
        block: Block,
        cells: Sequence<u64>,
    },
    /// Gives a new buffer its key.
    Name {
        seat: u32,
        header: u32,
        key: BufferKey,
    },
    /// Fills the next cell of a new buffer.
    Fill {
        seat: u32,
        header: u32,
        value: u64,
    },
    /// Makes a filled buffer live, held by its claimant.
    Publish {
        seat: u32,
        header: u32,
    },
    /// Takes hold of a live buffer.
    Pin {
        seat: u32,
        header: u32,
    },
    /// Lets a buffer go.
    Unpin {
        seat: u32,
        header: u32,
    },
    /// Takes a live buffer that nobody holds, to evict it.
    BeginEvict {
        seat: u32,
        header: u32,
    },
    /// Turns an evicted buffer into a grant of its block.
    Release {
        seat: u32,
        header: u32,
    },
    /// Takes a live buffer that nobody holds, to move it to a granted block, whose cells may hold anything.
    BeginMove {
        seat: u32,
        header: u32,
        target: Block,
        cells: Sequence<u64>,
    },
    /// Copies the next cell of a moving buffer to its target.
    Copy {
        seat: u32,
        header: u32,
    },
    /// Makes a copied buffer live at its target, and its old block a grant.
    Settle {
        seat: u32,
        header: u32,
    },
    /// Makes a moving buffer live where it was, and its target a grant.
    Cancel {
        seat: u32,
        header: u32,
    },
}

/// Why a step wasn't made.
#[derive(Clone, Copy, Debug, PartialEq, Eq)]
pub enum StepFault {
    /// What the step needs isn't so.
    Refused,
    /// There was no memory for one more holder.
    NoMemory,
}
