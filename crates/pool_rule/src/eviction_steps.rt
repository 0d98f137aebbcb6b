//! The steps that take a buffer out of the pool, one atomic step each.

ghost use Rattle.std.specs.Prelude.{◌≡◌, ◌≢◌, ◌<◌};
ghost use Rattle.pool_rule.specs.declared.geometry.WordName.TheVariants.{State};
ghost use Rattle.pool_rule.specs.declared.view.Claim.TheVariants.{Gone};
ghost use Rattle.pool_rule.specs.declared.word_step.WordStep.TheVariants.{EvictBegun, HeaderReleased, Missed};
ghost use Rattle.pool_rule.specs.Layout.{IsBlockIn, headers_of};
ghost use Rattle.pool_rule.specs.Seats.{mark_at};
ghost use Rattle.pool_rule.specs.Tables.{geometry_of, table_of};
ghost use Rattle.pool_rule.specs.Words.{IsSeatAt, IsStill, view};
ghost use Rattle.pool_rule.specs.WordSteps.{IsIdleWord, IsMade};

use crate::aim::Aim;
use crate::{TableSeat, WordName, Words};
use buffer_word::release_step;
use outside::World;
use pool_model::Block;
use std::marker::Brand;

impl<W: World> Words<W> {
    /// Makes a live buffer that nobody holds evicted, for the seat to release: one exchange of its header's state, from the
    /// word that was seen, which is that of a live buffer without a count. Gives the word that it found.
    pub fn begin_evict(&self, seat: &mut TableSeat, header: u32, seen: u64) -> u64
        requires seat { IsSeatAt (table_of self.now) (geometry_of self.now) seat.old }
        requires header { header < headers_of (geometry_of self.now) }
        requires idle { IsIdleWord seen }
        ensures seat { IsStill (table_of self.now) (geometry_of self.now) seat.old seat.new }
        ensures ok { result ≡ seen →
            IsMade W.files (geometry_of self.now) seat.old.id (EvictBegun header result) (view seat.old) (view seat.new) }
        ensures missed { result ≢ seen →
            IsMade W.files (geometry_of self.now) seat.old.id (Missed (State header) result) (view seat.old) (view seat.new) }
    {
        pool_model::laws::every_run_is_lawful();
        buffer_word::laws::evict_adds_4();
        let index = self.index(WordName::State(header));
        self.exchange::<Brand>(
            seat,
            index,
            seen,
            seen + 4,
            Aim::BeginEvict { header, seen },
        )
    }

    /// Releases the header of a buffer that the seat evicts: one fetch_add on its state. The block is a grant of the seat's
    /// from then on. Gives the word that it found.
    pub fn release(&self, seat: &mut TableSeat, header: u32, block: Block) -> u64
        requires seat { IsSeatAt (table_of self.now) (geometry_of self.now) seat.old }
        requires header { header < headers_of (geometry_of self.now) }
        requires block { IsBlockIn (geometry_of self.now) block }
        requires claim { (mark_at (view seat.old) header).claim ≡ Gone block }
        ensures seat { IsStill (table_of self.now) (geometry_of self.now) seat.old seat.new }
        ensures made { let step = HeaderReleased header block result in
            IsMade W.files (geometry_of self.now) seat.old.id step (view seat.old) (view seat.new) }
    {
        pool_model::laws::every_run_is_lawful();
        let step = release_step(block.order, block.place);
        let index = self.index(WordName::State(header));
        self.add::<Brand>(seat, index, step, Aim::Release { header, block })
    }
}
