use crate::{Block, Buffer, Sequence};
use std::alloc::{AllocError, Global};

/// What is granted at a place: the order of the block that begins there, and the seat that has it.
#[derive(Clone, Copy, Debug, PartialEq, Eq)]
pub struct GrantedBlock {
    pub order: u32,
    pub owner: u32,
}

/// A pool: its buffers by header, and its grants by the place at which their blocks begin.
#[derive(Drop)]
pub struct PlainPool {
    pub buffers: Sequence<Option<Buffer>>,
    pub grants: Sequence<Option<GrantedBlock>>,
}

impl PlainPool {
    ghost use Rattle.std.specs.Prelude.{◌≡◌, ◌↔◌, IfOk, IsTrue, length};
    ghost use Rattle.pool_model.specs.Pool.{empty_pool, buffer_at, grant_at, HasGrant, with_buffer, with_grant, without_grant};
    ghost use Rattle.pool_model.specs.Step.{IsReleased};
    ghost use Rattle.pool_model.specs.Lawful.{IsLawful};
    ghost use Rattle.pool_model.specs.declared.setting.Setting.{Setting};

    /// A pool with no buffer and no grant.
    pub fn empty(alloc: Global, headers: usize, places: usize) -> Result<PlainPool, AllocError>
        ensures empty { IfOk result (λ p. p ≡ empty_pool headers places) }
        ensures lawful { IfOk result (λ p. (w : Setting) → IsLawful w p) }
    {
        Ok(PlainPool {
            buffers: Sequence::of_none(alloc, headers)?,
            grants: Sequence::of_none(alloc, places)?,
        })
    }

    /// How many places there are: minimum blocks, over all arenas.
    pub fn places(&self) -> usize
        ensures { result ≡ length self.now.grants }
    {
        self.grants.as_slice().len()
    }

    /// Whether the header is one of the pool's and has no buffer.
    pub fn is_released(&self, header: u32) -> bool
        ensures { IsTrue result ↔ IsReleased self.now header }
    {
        match self.buffers.as_slice().get(header as usize) {
            Some(buffer) => buffer.is_none(),
            None => false,
        }
    }

    /// Takes the buffer out of a header, if there is one.
    pub fn take_buffer(&mut self, header: u32) -> Option<Buffer>
        ensures taken { result ≡ buffer_at self.old header }
        ensures left { self.new ≡ with_buffer header None self.old }
    {
        if (header as usize) < self.buffers.as_slice().len() {
            self.buffers.replace(header as usize, None)
        } else {
            None
        }
    }

    /// Puts a buffer into a header. A header past the end takes none.
    pub fn put_buffer(&mut self, header: u32, buffer: Buffer)
        ensures { self.new ≡ with_buffer header (Some buffer) self.old }
    {
        self.buffers.set(header as usize, Some(buffer));
    }

    /// Whether the block is a grant of the seat's.
    pub fn has_grant(&self, seat: u32, block: Block) -> bool
        ensures { IsTrue result ↔ HasGrant self.now seat block }
    {
        match self.grants.as_slice().get(block.place as usize) {
            Some(Some(granted)) => granted.order == block.order && granted.owner == seat,
            _ => false,
        }
    }

    /// Makes the block a grant of the seat's.
    pub fn put_grant(&mut self, seat: u32, block: Block)
        ensures { self.new ≡ with_grant seat block self.old }
    {
        let granted = GrantedBlock {
            order: block.order,
            owner: seat,
        };
        self.grants.set(block.place as usize, Some(granted));
    }

    /// Takes away the grant whose block begins where this one does.
    pub fn take_grant(&mut self, block: Block)
        ensures { self.new ≡ without_grant block self.old }
    {
        self.grants.set(block.place as usize, None);
    }
}
