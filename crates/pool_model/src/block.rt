ghost use Rattle.std.specs.Prelude.{◌↔◌, ◌+◌, ◌^◌, ◌<◌, ◌≤◌, IsTrue};

use crate::Setting;

/// A block: the `2^order` minimum blocks from `place` on, counted over all arenas.
#[derive(Clone, Copy, Debug, PartialEq, Eq)]
pub struct Block {
    pub place: u32,
    pub order: u32,
}

impl Block {
    ghost use Rattle.std.specs.Prelude.{◌≡◌, ◌↔◌, ◌<◌, ◌≤◌, IsTrue};
    ghost use Rattle.pool_model.specs.Block.{Within, IsBlock, covers, bytes_in, cells_for};

    /// Whether a minimum block is one of the block's.
    #[tactic(auto, using(crate::proofs::Owners::covers_counts))]
    pub fn has(&self, place: u64) -> bool
        ensures within { IsTrue result ↔ Within self.now place }
        ensures counted { IsTrue result ↔ (0 < covers self.now place) }
    {
        spans(u64::from(self.place), self.order, place)
    }

    /// Whether a pool of that setting, with that many places, may have the block.
    #[tactic(auto, using(crate::proofs::Numbers::shifts))]
    pub fn fits_pool(&self, setting: &Setting, places: usize) -> bool
        requires { setting.now.greatest_order ≤ 12 }
        ensures { IsTrue result ↔ IsBlock setting.now.greatest_order places self.now }
    {
        if self.order > setting.greatest_order {
            return false;
        }
        let size = 1_u64 << self.order;
        let place = u64::from(self.place);
        place % size == 0 && place + size <= places as u64
    }

    /// The bytes of the block, where a minimum block has `min_block`.
    pub fn bytes(&self, min_block: u32) -> u64
        requires { self.now.order ≤ 12 }
        ensures { result ≡ bytes_in min_block self.now }
    {
        u64::from(min_block) * (1 << self.order)
    }

    /// The cells of eight bytes of the block.
    #[tactic(auto, unfolding(crate::specs::Block::cells_for))]
    pub fn cells(&self, min_block: u32) -> u64
        requires { self.now.order ≤ 12 }
        ensures { result ≡ cells_for (bytes_in min_block self.now) }
    {
        (self.bytes(min_block) + 7) / 8
    }
}

/// Whether a place is among the `2^order` from the first on.
#[tactic(auto, using(crate::proofs::Numbers::shifts))]
pub fn spans(first: u64, order: u32, place: u64) -> bool
    ensures { IsTrue result ↔ ((first ≤ place) × (place < first + 2 ^ order)) }
{
    first <= place && (order >= 64 || place - first < 1 << order)
}
