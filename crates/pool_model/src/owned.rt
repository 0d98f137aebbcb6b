//! Who has a minimum block of a pool.

ghost use Rattle.std.specs.Prelude.{◌≡◌, ◌↔◌, ◌<◌, ◌≤◌, ℕ, IsTrue};
ghost use Rattle.pool_model.specs.Block.{covers};
ghost use Rattle.pool_model.specs.Pool.{buffer_covers, grant_covers, target_covers, total, owners};
ghost use Rattle.pool_model.specs.Step.{IsFree};

use crate::block::spans;
use crate::{Block, Buffer, GrantedBlock, PlainPool, Target};

/// Whether a target, if there is one, has the minimum block.
fn target_has(target: &Option<Target>, place: u64) -> bool
    ensures { IsTrue result ↔ (0 < target_covers place target.now) }
{
    match target {
        Some(target) => target.block.has(place),
        None => false,
    }
}

/// Whether a header's buffer, if it has one, has the minimum block in its block or its target.
fn buffer_has(buffer: &Option<Buffer>, place: u64) -> bool
    ensures { (header : ℕ) → IsTrue result ↔ (0 < buffer_covers place header buffer.now) }
{
    match buffer {
        Some(buffer) => buffer.block.has(place) || target_has(&buffer.target, place),
        None => false,
    }
}

/// Whether what is granted at a place has the minimum block.
#[tactic(auto, using(crate::proofs::Owners::covers_counts))]
fn grant_has(at: usize, granted: Option<GrantedBlock>, place: u64) -> bool
    ensures { IsTrue result ↔ (0 < grant_covers place at granted) }
{
    match granted {
        Some(granted) => spans(at as u64, granted.order, place),
        None => false,
    }
}

fn buffers_have(buffers: &[Option<Buffer>], place: u64) -> bool
    ensures { IsTrue result ↔ (0 < total (buffer_covers place) 0 buffers.now) }
{
    for buffer in buffers {
        if buffer_has(buffer, place) {
            return true;
        }
    }
    false
}

fn grants_have(grants: &[Option<GrantedBlock>], place: u64) -> bool
    ensures { IsTrue result ↔ (0 < total (grant_covers place) 0 grants.now) }
{
    for (at, granted) in grants.iter().enumerate() {
        if grant_has(at, *granted, place) {
            return true;
        }
    }
    false
}

impl PlainPool {
    /// Whether a block, a target or a grant has the minimum block.
    #[tactic(auto, unfolding(crate::specs::Pool::owners))]
    pub fn is_owned(&self, place: u64) -> bool
        ensures { IsTrue result ↔ (0 < owners self.now place) }
    {
        buffers_have(self.buffers.as_slice(), place) || grants_have(self.grants.as_slice(), place)
    }

    /// Whether no block, target or grant shares a minimum block with this one.
    #[tactic(auto, using(crate::proofs::Numbers::shifts))]
    pub fn is_free(&self, block: Block) -> bool
        requires { block.order ≤ 12 }
        ensures { IsTrue result ↔ IsFree self.now block }
    {
        let first = u64::from(block.place);
        for place in first..first + (1 << block.order) {
            if self.is_owned(place) {
                return false;
            }
        }
        true
    }
}
