//! The steps of the pool as a program: each is made, or refused where what it needs isn't so.

use crate::{Block, Buffer, BufferKey, PlainPool, Sequence, Setting, Step, StepFault};
use std::alloc::Global;

impl PlainPool {
    ghost use Rattle.std.specs.Prelude.{◌≡◌, ◌≤◌, OnOk, OnErr, Ok, Err};
    ghost use Rattle.pool_model.specs.declared.step.Step.TheVariants.{Grant, Ungrant, Open, Name, Fill, Publish};
    ghost use Rattle.pool_model.specs.declared.step.Step.TheVariants.{Pin, Unpin, BeginEvict, Release, BeginMove};
    ghost use Rattle.pool_model.specs.declared.step.Step.TheVariants.{Copy, Settle, Cancel};
    ghost use Rattle.pool_model.specs.Lawful.{IsLawful};
    ghost use Rattle.pool_model.specs.Outcome.{Makes, TakesMemory};
    ghost use Rattle.pool_model.specs.Step.{Needs, after};

    fn grant(&mut self, setting: &Setting, seat: u32, block: Block) -> Result<(), StepFault>
        requires { setting.now.greatest_order ≤ 12 }
        ensures { Makes setting.now (Grant seat block) result self.old self.new }
    {
        if !block.fits_pool(setting, self.places()) || !self.is_free(block) {
            return Err(StepFault::Refused);
        }
        self.put_grant(seat, block);
        Ok(())
    }

    fn ungrant(&mut self, setting: &Setting, seat: u32, block: Block) -> Result<(), StepFault>
        ensures { Makes setting.now (Ungrant seat block) result self.old self.new }
    {
        if !self.has_grant(seat, block) {
            return Err(StepFault::Refused);
        }
        self.take_grant(block);
        Ok(())
    }

    fn open(
        &mut self,
        alloc: Global,
        setting: &Setting,
        seat: u32,
        header: u32,
        block: Block,
        cells: Sequence<u64>,
    ) -> Result<(), StepFault>
        requires order { setting.now.greatest_order ≤ 12 }
        requires lawful { IsLawful setting.now self.old }
        ensures { Makes setting.now (Open seat header block cells) result self.old self.new }
    {
        if !self.is_released(header) || !self.has_grant(seat, block) {
            return Err(StepFault::Refused);
        }
        if cells.as_slice().len() as u64 != block.cells(setting.min_block) {
            return Err(StepFault::Refused);
        }
        self.put_buffer(header, Buffer::opened(alloc, block, seat, cells));
        self.take_grant(block);
        Ok(())
    }

    fn name(
        &mut self,
        setting: &Setting,
        seat: u32,
        header: u32,
        key: BufferKey,
    ) -> Result<(), StepFault>
        requires order { setting.now.greatest_order ≤ 12 }
        requires lawful { IsLawful setting.now self.old }
        ensures { Makes setting.now (Name seat header key) result self.old self.new }
    {
        let Some(mut buffer) = self.take_buffer(header) else {
            return Err(StepFault::Refused);
        };
        let outcome = buffer.name(setting, seat, key);
        self.put_buffer(header, buffer);
        outcome
    }

    fn fill(
        &mut self,
        setting: &Setting,
        seat: u32,
        header: u32,
        value: u64,
    ) -> Result<(), StepFault>
        ensures { Makes setting.now (Fill seat header value) result self.old self.new }
    {
        let Some(mut buffer) = self.take_buffer(header) else {
            return Err(StepFault::Refused);
        };
        let outcome = buffer.fill(setting, seat, value);
        self.put_buffer(header, buffer);
        outcome
    }

    fn publish(&mut self, setting: &Setting, seat: u32, header: u32) -> Result<(), StepFault>
        requires { IsLawful setting.now self.old }
        ensures { Makes setting.now (Publish seat header) result self.old self.new }
    {
        let Some(mut buffer) = self.take_buffer(header) else {
            return Err(StepFault::Refused);
        };
        let outcome = buffer.publish(seat);
        self.put_buffer(header, buffer);
        outcome
    }

    fn pin(&mut self, setting: &Setting, seat: u32, header: u32) -> Result<(), StepFault>
        ensures { Makes setting.now (Pin seat header) result self.old self.new }
    {
        let Some(mut buffer) = self.take_buffer(header) else {
            return Err(StepFault::Refused);
        };
        let outcome = buffer.pin(seat);
        self.put_buffer(header, buffer);
        outcome
    }

    fn unpin(&mut self, setting: &Setting, seat: u32, header: u32) -> Result<(), StepFault>
        ensures { Makes setting.now (Unpin seat header) result self.old self.new }
    {
        let Some(mut buffer) = self.take_buffer(header) else {
            return Err(StepFault::Refused);
        };
        let outcome = buffer.unpin(seat);
        self.put_buffer(header, buffer);
        outcome
    }

    fn begin_evict(&mut self, setting: &Setting, seat: u32, header: u32) -> Result<(), StepFault>
        ensures { Makes setting.now (BeginEvict seat header) result self.old self.new }
    {
        let Some(mut buffer) = self.take_buffer(header) else {
            return Err(StepFault::Refused);
        };
        let outcome = buffer.begin_evict(seat);
        self.put_buffer(header, buffer);
        outcome
    }

    fn copy(&mut self, setting: &Setting, seat: u32, header: u32) -> Result<(), StepFault>
        ensures { Makes setting.now (Copy seat header) result self.old self.new }
    {
        let Some(mut buffer) = self.take_buffer(header) else {
            return Err(StepFault::Refused);
        };
        let outcome = buffer.copy(seat);
        self.put_buffer(header, buffer);
        outcome
    }

    fn release(&mut self, setting: &Setting, seat: u32, header: u32) -> Result<(), StepFault>
        ensures { Makes setting.now (Release seat header) result self.old self.new }
    {
        let Some(buffer) = self.take_buffer(header) else {
            return Err(StepFault::Refused);
        };
        if !buffer.can_release(seat) {
            self.put_buffer(header, buffer);
            return Err(StepFault::Refused);
        }
        self.put_grant(seat, buffer.block);
        Ok(())
    }

    fn begin_move(
        &mut self,
        setting: &Setting,
        seat: u32,
        header: u32,
        target: Block,
        cells: Sequence<u64>,
    ) -> Result<(), StepFault>
        requires order { setting.now.greatest_order ≤ 12 }
        requires lawful { IsLawful setting.now self.old }
        ensures { Makes setting.now (BeginMove seat header target cells) result self.old self.new }
    {
        if !self.has_grant(seat, target) {
            return Err(StepFault::Refused);
        }
        if cells.as_slice().len() as u64 != target.cells(setting.min_block) {
            return Err(StepFault::Refused);
        }
        let Some(mut buffer) = self.take_buffer(header) else {
            return Err(StepFault::Refused);
        };
        if !buffer.can_move(target) {
            self.put_buffer(header, buffer);
            return Err(StepFault::Refused);
        }
        buffer.begin_move(seat, target, cells);
        self.put_buffer(header, buffer);
        self.take_grant(target);
        Ok(())
    }

    fn settle(&mut self, setting: &Setting, seat: u32, header: u32) -> Result<(), StepFault>
        requires { IsLawful setting.now self.old }
        ensures { Makes setting.now (Settle seat header) result self.old self.new }
    {
        let Some(mut buffer) = self.take_buffer(header) else {
            return Err(StepFault::Refused);
        };
        if !buffer.can_settle(seat) {
            self.put_buffer(header, buffer);
            return Err(StepFault::Refused);
        }
        let left = buffer.block;
        buffer.settle();
        self.put_buffer(header, buffer);
        self.put_grant(seat, left);
        Ok(())
    }

    fn cancel(&mut self, setting: &Setting, seat: u32, header: u32) -> Result<(), StepFault>
        requires { IsLawful setting.now self.old }
        ensures { Makes setting.now (Cancel seat header) result self.old self.new }
    {
        let Some(mut buffer) = self.take_buffer(header) else {
            return Err(StepFault::Refused);
        };
        if !buffer.can_cancel(seat) {
            self.put_buffer(header, buffer);
            return Err(StepFault::Refused);
        }
        let left = buffer.cancel();
        self.put_buffer(header, buffer);
        self.put_grant(seat, left);
        Ok(())
    }

    /// Makes a step, or refuses it.
    ///
    /// `Refused` comes exactly where what the step needs isn't so, unless memory is wanting; only a publish and a pin
    /// take memory. A step that isn't made leaves the pool as it was.
    ///
    /// Source: this project's own.
    pub fn apply(&mut self, alloc: Global, setting: &Setting, step: Step) -> Result<(), StepFault>
        requires order { setting.now.greatest_order ≤ 12 }
        requires lawful { IsLawful setting.now self.old }

        ensures needs { OnOk result (Needs setting.now step self.old) }
        ensures made { OnOk result (self.new ≡ after step self.old) }
        ensures refused { result ≡ Err StepFault.Refused → Needs setting.now step self.old → ⊥ }
        ensures memory { result ≡ Err StepFault.NoMemory → TakesMemory step × Needs setting.now step self.old }
        ensures left { OnErr result (self.new ≡ self.old) }
        ensures stays_lawful { IsLawful setting.now self.new }
    {
        self.make(alloc, setting, step)
    }

    fn make(&mut self, alloc: Global, setting: &Setting, step: Step) -> Result<(), StepFault>
        requires order { setting.now.greatest_order ≤ 12 }
        requires lawful { IsLawful setting.now self.old }
        ensures { Makes setting.now step result self.old self.new }
    {
        match step {
            Step::Grant { seat, block } => self.grant(setting, seat, block),
            Step::Ungrant { seat, block } => self.ungrant(setting, seat, block),
            Step::Open {
                seat,
                header,
                block,
                cells,
            } => self.open(alloc, setting, seat, header, block, cells),
            Step::Name { seat, header, key } => self.name(setting, seat, header, key),
            Step::Fill {
                seat,
                header,
                value,
            } => self.fill(setting, seat, header, value),
            Step::Publish { seat, header } => self.publish(setting, seat, header),
            Step::Pin { seat, header } => self.pin(setting, seat, header),
            Step::Unpin { seat, header } => self.unpin(setting, seat, header),
            Step::BeginEvict { seat, header } => self.begin_evict(setting, seat, header),
            Step::Release { seat, header } => self.release(setting, seat, header),
            Step::BeginMove {
                seat,
                header,
                target,
                cells,
            } => { self.begin_move(setting, seat, header, target, cells) }
            Step::Copy { seat, header } => self.copy(setting, seat, header),
            Step::Settle { seat, header } => self.settle(setting, seat, header),
            Step::Cancel { seat, header } => self.cancel(setting, seat, header),
        }
    }
}
