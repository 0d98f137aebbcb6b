//! The steps on one buffer. Each is made, or refused where what it needs isn't so.

use crate::{Block, Buffer, BufferKey, BufferMode, Sequence, Setting, StepFault, Target};
use std::alloc::Global;

impl BufferKey {
    ghost use Rattle.std.specs.Prelude.{◌≡◌, ◌<◌};
    ghost use Rattle.pool_model.specs.Content.{cells_of};

    /// The cells of eight bytes that hold the key's bytes.
    #[tactic(auto, unfolding(crate::specs::Block::cells_for))]
    pub fn cells(&self) -> u64
        ensures cells { result ≡ cells_of self.now }
        ensures small { result < 4294967296 }
    {
        (u64::from(self.len) + 7) / 8
    }
}

impl Buffer {
    ghost use Rattle.std.specs.Prelude.{◌≡◌, ◌↔◌, ◌+◌, ◌<◌, ◌≤◌, [], IsTrue, IsSome, IfSome, slice_index};
    ghost use Rattle.pool_model.specs.declared.buffer.BufferMode.TheVariants.{New, Live, Moving, Evicted};
    ghost use Rattle.pool_model.specs.Buffer.{Claimed, Holds, HasNext, IsDone, IsIdle, CanName, named, CanFill};
    ghost use Rattle.pool_model.specs.Buffer.{filled, CanPublish, published, CanPin, pinned, CanUnpin, unpinned};
    ghost use Rattle.pool_model.specs.Buffer.{evicting, CanMove, moving, CanRelease, CanCopy, copied, CanSettle};
    ghost use Rattle.pool_model.specs.Buffer.{CanCancel, opened, live_at};
    ghost use Rattle.pool_model.specs.Outcome.{Outcome};

    /// A new buffer, which its claimant may name.
    pub fn opened(alloc: Global, block: Block, seat: u32, cells: Sequence<u64>) -> Buffer
        ensures { result ≡ opened block seat cells }
    {
        Buffer {
            block,
            mode: BufferMode::New,
            key: None,
            cells,
            holders: Sequence::new(Vec::new(alloc)),
            claimant: Some(seat),
            target: None,
            done: 0,
        }
    }

    /// Whether the seat has the buffer for itself, in that mode.
    fn is_claimed(&self, mode: BufferMode, seat: u32) -> bool
        ensures { IsTrue result ↔ ((self.now.mode ≡ mode) × Claimed seat self.now) }
    {
        self.mode == mode && self.claimant == Some(seat)
    }

    /// Whether a cell of the key is still to be filled or copied.
    fn has_next(&self) -> bool
        ensures next { IsTrue result ↔ HasNext self.now }
        ensures small { IsTrue result → self.now.done + 1 < 4294967296 }
    {
        match self.key {
            Some(key) => u64::from(self.done) < key.cells(),
            None => false,
        }
    }

    /// Whether each cell of the key is filled or copied.
    fn is_done(&self) -> bool
        ensures { IsTrue result ↔ IsDone self.now }
    {
        match self.key {
            Some(key) => u64::from(self.done) == key.cells(),
            None => false,
        }
    }

    /// Whether the buffer is live and nobody holds it.
    pub fn is_idle(&self) -> bool
        ensures { IsTrue result ↔ IsIdle self.now }
    {
        self.mode == BufferMode::Live && self.holders.as_slice().is_empty()
    }

    /// Whether the seat holds the buffer.
    fn is_held_by(&self, seat: u32) -> bool
        ensures { IsTrue result ↔ Holds seat self.now.holders }
    {
        self.holders.as_slice().contains(&seat)
    }

    /// Gives a new buffer of the seat's its key. Refuses, and changes nothing, where `CanName` isn't so.
    pub fn name(&mut self, setting: &Setting, seat: u32, key: BufferKey) -> Result<(), StepFault>
        requires { self.old.block.order ≤ 12 }
        ensures { Outcome ⊥ result (CanName setting.now seat key self.old) self.new (named key self.old) self.old }
    {
        let fits = u64::from(key.len) <= self.block.bytes(setting.min_block);
        let ranges = setting.has_range(key);
        if !self.is_claimed(BufferMode::New, seat) || self.key.is_some() || !fits || !ranges {
            return Err(StepFault::Refused);
        }
        self.key = Some(key);
        Ok(())
    }

    /// Fills the next cell of a new buffer of the seat's. Refuses, and changes nothing, where `CanFill` isn't so.
    pub fn fill(&mut self, setting: &Setting, seat: u32, value: u64) -> Result<(), StepFault>
        ensures { Outcome ⊥ result (CanFill setting.now seat value self.old) self.new (filled value self.old) self.old }
    {
        if !self.is_claimed(BufferMode::New, seat) || !self.has_next() {
            return Err(StepFault::Refused);
        }
        let Some(key) = self.key else {
            return Err(StepFault::Refused);
        };
        if !setting.has_cell(key, self.done, value) {
            return Err(StepFault::Refused);
        }
        self.cells.set(self.done as usize, value);
        self.done += 1;
        Ok(())
    }

    /// Makes a filled buffer of the seat's live, with the seat as its holder. Refuses where `CanPublish` isn't so; then,
    /// and where memory is wanting, nothing changes.
    pub fn publish(&mut self, seat: u32) -> Result<(), StepFault>
        requires { self.old.mode ≡ New → self.old.holders ≡ [] }
        ensures { Outcome (Unit {0}) result (CanPublish seat self.old) self.new (published seat self.old) self.old }
    {
        if !self.is_claimed(BufferMode::New, seat) || !self.is_done() {
            return Err(StepFault::Refused);
        }
        self.hold(seat)?;
        self.mode = BufferMode::Live;
        self.claimant = None;
        Ok(())
    }

    /// Adds a holder.
    fn hold(&mut self, seat: u32) -> Result<(), StepFault>
        ensures { Outcome (Unit {0}) result (Unit {0}) self.new (pinned seat self.old) self.old }
    {
        match self.holders.push(seat) {
            Ok(()) => Ok(()),
            Err(_) => Err(StepFault::NoMemory),
        }
    }

    /// Makes the seat a holder. Refuses where `CanPin` isn't so; then, and where memory is wanting, nothing changes.
    pub fn pin(&mut self, seat: u32) -> Result<(), StepFault>
        ensures { Outcome (Unit {0}) result (CanPin seat self.old) self.new (pinned seat self.old) self.old }
    {
        if self.mode != BufferMode::Live || self.is_held_by(seat) {
            return Err(StepFault::Refused);
        }
        self.hold(seat)
    }

    /// Lets the seat's hold go. Refuses, and changes nothing, where the seat is no holder.
    pub fn unpin(&mut self, seat: u32) -> Result<(), StepFault>
        ensures { Outcome ⊥ result (CanUnpin seat self.old) self.new (unpinned seat self.old) self.old }
    {
        if !self.is_held_by(seat) {
            return Err(StepFault::Refused);
        }
        self.holders.remove_all(seat);
        Ok(())
    }

    /// Takes an idle buffer for the seat, to evict it. Refuses, and changes nothing, where it isn't idle.
    pub fn begin_evict(&mut self, seat: u32) -> Result<(), StepFault>
        ensures { Outcome ⊥ result (IsIdle self.old) self.new (evicting seat self.old) self.old }
    {
        if !self.is_idle() {
            return Err(StepFault::Refused);
        }
        self.mode = BufferMode::Evicted;
        self.claimant = Some(seat);
        Ok(())
    }

    /// Whether the buffer is idle and the target of its order.
    pub fn can_move(&self, target: Block) -> bool
        ensures { IsTrue result ↔ CanMove target self.now }
    {
        self.is_idle() && target.order == self.block.order
    }

    /// Moves an idle buffer to a target.
    pub fn begin_move(&mut self, seat: u32, block: Block, cells: Sequence<u64>)
        ensures { self.new ≡ moving seat block cells self.old }
    {
        self.mode = BufferMode::Moving;
        self.claimant = Some(seat);
        self.target = Some(Target { block, cells });
        self.done = 0;
    }

    /// Copies the next cell to the target. Refuses, and changes nothing, where `CanCopy` isn't so.
    pub fn copy(&mut self, seat: u32) -> Result<(), StepFault>
        ensures { Outcome ⊥ result (CanCopy seat self.old) self.new (copied self.old) self.old }
    {
        if !self.is_claimed(BufferMode::Moving, seat) || !self.has_next() {
            return Err(StepFault::Refused);
        }
        let number = self.done;
        let value = self.cell(number);
        self.done = number + 1;
        if let Some(target) = &mut self.target {
            target.cells.set(number as usize, value);
        }
        Ok(())
    }

    /// A cell, or 0 past the end.
    fn cell(&self, number: u32) -> u64
        ensures { result ≡ slice_index self.now.cells number }
    {
        let cells = self.cells.as_slice();
        let number = number as usize;
        if number < cells.len() {
            cells[number]
        } else {
            0
        }
    }

    /// Whether the seat may release the buffer's block.
    pub fn can_release(&self, seat: u32) -> bool
        ensures { IsTrue result ↔ CanRelease seat self.now }
    {
        self.is_claimed(BufferMode::Evicted, seat)
    }

    /// Whether the seat may settle the buffer at its target.
    pub fn can_settle(&self, seat: u32) -> bool
        ensures { IsTrue result ↔ CanSettle seat self.now }
    {
        self.is_claimed(BufferMode::Moving, seat) && self.is_done()
    }

    /// Whether the seat may give up moving the buffer.
    pub fn can_cancel(&self, seat: u32) -> bool
        ensures { IsTrue result ↔ CanCancel seat self.now }
    {
        self.is_claimed(BufferMode::Moving, seat)
    }

    /// Makes a moving buffer live at its target.
    pub fn settle(&mut self)
        requires { IsSome self.old.target }
        ensures { IfSome self.old.target (λ t. self.new ≡ live_at t.block t.cells self.old) }
    {
        if let Some(target) = self.target.take() {
            let Target { block, cells } = target;
            self.block = block;
            self.cells = cells;
            self.mode = BufferMode::Live;
            self.claimant = None;
        }
    }

    /// Makes a moving buffer live where it is, and gives back its target's block.
    pub fn cancel(&mut self) -> Block
        requires { IsSome self.old.target }
        ensures target { IfSome self.old.target (λ t. result ≡ t.block) }
        ensures live { self.new ≡ live_at self.old.block self.old.cells self.old }
    {
        let block = match &self.target {
            Some(target) => target.block,
            None => self.block,
        };
        self.target = None;
        self.mode = BufferMode::Live;
        self.claimant = None;
        block
    }
}
