//! What a seat is handed. None of these derives `Drop`: each must be spent by a call, so nothing is left behind.

use buffer_word::Key;
use pool_model::Block;

/// A block that is granted to a seat. Spend it by a call of that seat.
pub struct Grant {
    pub(crate) block: Block,
}

impl Grant {
    ghost use Rattle.std.specs.Prelude.{◌≡◌};
    ghost use Rattle.buffer_pool.specs.Pools.{block_of};

    /// The block: its place, counted in minimum blocks over all arenas, and its order.
    pub fn block(&self) -> Block
        ensures { result ≡ block_of self.now }
    {
        self.block
    }
}

/// A new buffer of a header, with its key, which the seat claims. Spend it by a call of that seat.
pub struct NewBuffer {
    pub(crate) header: u32,
    pub(crate) block: Block,
    pub(crate) key: Key,
}

/// An evicted buffer of a header, which the seat claims. Spend it by a call of that seat.
pub struct Evicting {
    pub(crate) header: u32,
    pub(crate) block: Block,
}

impl Evicting {
    ghost use Rattle.std.specs.Prelude.{◌≡◌};
    ghost use Rattle.buffer_pool.specs.Pools.{evicting_block, evicting_header};

    /// The header, counted from 0.
    pub fn header(&self) -> u32
        ensures { result ≡ evicting_header self.now }
    {
        self.header
    }

    /// The block, which becomes a grant when the header is released.
    pub fn block(&self) -> Block
        ensures { result ≡ evicting_block self.now }
    {
        self.block
    }
}

/// A hold of a live buffer, whose key is known. Spend it by a call of the seat that has it.
pub struct Pin {
    pub(crate) header: u32,
    pub(crate) block: Block,
    pub(crate) key: Key,
}

impl Pin {
    ghost use Rattle.std.specs.Prelude.{◌≡◌};
    ghost use Rattle.buffer_pool.specs.Pools.{pin_header, pin_key};

    /// The header, counted from 0.
    pub fn header(&self) -> u32
        ensures { result ≡ pin_header self.now }
    {
        self.header
    }

    /// The range of a file that the buffer holds.
    pub fn key(&self) -> Key
        ensures { result ≡ pin_key self.now }
    {
        self.key
    }
}
