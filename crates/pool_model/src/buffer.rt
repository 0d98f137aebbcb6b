use crate::{Block, Sequence};

/// What a buffer's owner may do with it next.
#[derive(Clone, Copy, Debug, PartialEq, Eq)]
pub enum BufferMode {
    /// Its claimant names it and fills its cells.
    New,
    /// Any seat may hold it.
    Live,
    /// Its claimant copies its cells to the target.
    Moving,
    /// Its claimant gives its block back.
    Evicted,
}

/// The range of a file that a buffer holds: `len` bytes from byte `at` on.
#[derive(Clone, Copy, Debug, PartialEq, Eq)]
pub struct BufferKey {
    pub file: u32,
    pub at: u64,
    pub len: u32,
}

/// The block to which a buffer moves, and its cells of eight bytes.
#[derive(Drop)]
pub struct Target {
    pub block: Block,
    pub cells: Sequence<u64>,
}

/// What stands in a header: a block and whoever has to do with it.
#[derive(Drop)]
pub struct Buffer {
    pub block: Block,
    pub mode: BufferMode,
    pub key: Option<BufferKey>,
    /// The cells of the block, eight bytes each.
    pub cells: Sequence<u64>,
    /// The seats that hold the buffer.
    pub holders: Sequence<u32>,
    /// The seat that has taken the buffer for itself.
    pub claimant: Option<u32>,
    pub target: Option<Target>,
    /// How many cells are filled or copied.
    pub done: u32,
}
