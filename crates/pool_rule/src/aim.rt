//! What a step is meant to be, before it has found its word.

use crate::WordName;
use pool_model::{Block, BufferKey};

/// A kind of step, with what the seat that makes it wants. The table doesn't see it: it tells proofs what the step tells.
#[derive(Clone, Copy)]
pub(crate) enum Aim {
    Look {
        word: WordName,
    },
    LookAtCell {
        cell: u32,
    },
    Take {
        block: Block,
        seen: u64,
    },
    Return {
        block: Block,
    },
    Open {
        header: u32,
        block: Block,
    },
    StoreKey {
        header: u32,
        block: Block,
        key: BufferKey,
    },
    StoreCell {
        header: u32,
        block: Block,
        key: BufferKey,
        done: u32,
        value: u64,
    },
    Publish {
        header: u32,
        block: Block,
        key: BufferKey,
    },
    Count {
        header: u32,
    },
    Uncount {
        header: u32,
    },
    BeginEvict {
        header: u32,
        seen: u64,
    },
    Release {
        header: u32,
        block: Block,
    },
    Increase {
        word: WordName,
    },
    Raise {
        word: WordName,
        to: u64,
    },
    Clear {
        word: WordName,
    },
}
