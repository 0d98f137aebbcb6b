//! The steps on headers and cells that make buffers and hold them, one atomic step each.

ghost use Rattle.std.specs.Prelude.{◌≡◌, ◌≢◌, ℕ, ◌+◌, ◌*◌, ◌^◌, ◌<◌, ◌≤◌, List, Some, None};
ghost use Rattle.buffer_word.specs.KeyWord.{IsKey};
ghost use Rattle.pool_model.specs.Block.{bytes_in};
ghost use Rattle.pool_model.specs.Content.{IsCell, IsRange, cells_of};
ghost use Rattle.pool_rule.specs.declared.geometry.WordName.TheVariants.{State};
ghost use Rattle.pool_rule.specs.declared.view.Claim.TheVariants.{Fresh};
ghost use Rattle.pool_rule.specs.declared.view.Hold.TheVariants.{Bid, Free};
ghost use Rattle.pool_rule.specs.declared.word_step.WordStep.TheVariants.{Counted, Filled, Missed, Named, Opened, Published, Uncounted};
ghost use Rattle.pool_rule.specs.Headers.{packed};
ghost use Rattle.pool_rule.specs.Layout.{IsBlockIn, block_cells, headers_of, places_of};
ghost use Rattle.pool_rule.specs.Seats.{granted_at, mark_at};
ghost use Rattle.pool_rule.specs.Tables.{geometry_of, table_of};
ghost use Rattle.pool_rule.specs.Words.{IsSeatAt, IsStill, view};
ghost use Rattle.pool_rule.specs.WordSteps.{IsMade, new_word};

use crate::aim::Aim;
use crate::{TableSeat, WordName, Words};
use buffer_word::{Key, pack_key};
use outside::World;
use pool_model::{Block, BufferKey};
use std::marker::Brand;

/// The state word of a new buffer of the block, without a count.
fn word_of_new(block: Block) -> u64
    requires { (block.order < 2 ^ 4) × (block.place < 2 ^ 20) }
    ensures { result ≡ new_word block }
{
    1 + (u64::from(block.order) << 20) + (u64::from(block.place) << 24)
}

impl<W: World> Words<W> {
    /// Makes a new buffer of a granted block, which the seat claims: one exchange of the header's state, from that of a
    /// released header without a count. Gives the word that it found.
    pub fn open_buffer(&self, seat: &mut TableSeat, header: u32, block: Block) -> u64
        requires seat { IsSeatAt (table_of self.now) (geometry_of self.now) seat.old }
        requires header { header < headers_of (geometry_of self.now) }
        requires block { IsBlockIn (geometry_of self.now) block }
        requires granted { granted_at (view seat.old) block.place ≡ Some block.order }
        ensures seat { IsStill (table_of self.now) (geometry_of self.now) seat.old seat.new }
        ensures ok { result ≡ 8 → (cells : List ℕ) ×
            IsMade W.files (geometry_of self.now) seat.old.id (Opened header block cells) (view seat.old) (view seat.new) }
        ensures missed { result ≢ 8 →
            IsMade W.files (geometry_of self.now) seat.old.id (Missed (State header) result) (view seat.old) (view seat.new) }
    {
        pool_model::laws::every_run_is_lawful();
        buffer_word::laws::opened_word();
        let word = word_of_new(block);
        let index = self.index(WordName::State(header));
        self.exchange::<Brand>(seat, index, 8, word, Aim::Open { header, block })
    }

    /// Stores the key of a new buffer that the seat claims.
    pub fn store_key(&self, seat: &mut TableSeat, header: u32, block: Block, key: BufferKey)
        requires seat { IsSeatAt (table_of self.now) (geometry_of self.now) seat.old }
        requires header { header < headers_of (geometry_of self.now) }
        requires claim { (mark_at (view seat.old) header).claim ≡ Fresh block None 0 }
        requires packs { IsKey (packed key) }
        requires fits { key.len ≤ bytes_in (geometry_of self.now).min_block block }
        requires range { IsRange W.files key }
        ensures seat { IsStill (table_of self.now) (geometry_of self.now) seat.old seat.new }
        ensures made { (found : ℕ) ×
            IsMade W.files (geometry_of self.now) seat.old.id (Named header block key found) (view seat.old) (view seat.new) }
    {
        pool_model::laws::every_run_is_lawful();
        let word = pack_key(Key {
            file: key.file,
            at: key.at,
            len: key.len,
        });
        let index = self.index(WordName::KeyOf(header));
        self.store::<Brand>(seat, index, word, Aim::StoreKey { header, block, key });
    }

    /// Stores the next cell of a new buffer that the seat claims, the one after the `done` cells that are filled.
    pub fn store_cell(
        &self,
        seat: &mut TableSeat,
        header: u32,
        block: Block,
        key: BufferKey,
        done: u32,
        value: u64,
    )
        requires seat { IsSeatAt (table_of self.now) (geometry_of self.now) seat.old }
        requires header { header < headers_of (geometry_of self.now) }
        requires block { IsBlockIn (geometry_of self.now) block }
        requires fits { key.len ≤ bytes_in (geometry_of self.now).min_block block }
        requires claim { (mark_at (view seat.old) header).claim ≡ Fresh block (Some key) done }
        requires more { done < cells_of key }
        requires cell { IsCell W.files key done value }
        ensures seat { IsStill (table_of self.now) (geometry_of self.now) seat.old seat.new }
        ensures made { (found : ℕ) ×
            IsMade W.files (geometry_of self.now) seat.old.id (Filled header block key done value found) (view seat.old) (view seat.new) }
    {
        pool_model::laws::every_run_is_lawful();
        let cell = self.cell_of(block, done);
        let index = self.cell_index(cell);
        let aim = Aim::StoreCell {
            header,
            block,
            key,
            done,
            value,
        };
        self.store::<Brand>(seat, index, value, aim);
    }

    /// Makes a new buffer that the seat claims live, and pinned by the seat: one fetch_add. All its cells are filled.
    /// Gives the word that it found.
    pub fn publish(&self, seat: &mut TableSeat, header: u32, block: Block, key: BufferKey) -> u64
        requires seat { IsSeatAt (table_of self.now) (geometry_of self.now) seat.old }
        requires header { header < headers_of (geometry_of self.now) }
        requires claim { (mark_at (view seat.old) header).claim ≡ Fresh block (Some key) (cells_of key) }
        requires no_bid { (mark_at (view seat.old) header).hold ≢ Bid }
        ensures seat { IsStill (table_of self.now) (geometry_of self.now) seat.old seat.new }
        ensures made { IsMade W.files (geometry_of self.now) seat.old.id (Published header block key result)
            (view seat.old) (view seat.new) }
    {
        pool_model::laws::every_run_is_lawful();
        buffer_word::laws::publish_adds_15();
        let index = self.index(WordName::State(header));
        self.add::<Brand>(seat, index, 15, Aim::Publish { header, block, key })
    }

    /// Adds a count to a header's state, in one fetch_add: a pin of a live buffer, and else a bid. Gives the word that it
    /// found.
    pub fn count_up(&self, seat: &mut TableSeat, header: u32) -> u64
        requires seat { IsSeatAt (table_of self.now) (geometry_of self.now) seat.old }
        requires header { header < headers_of (geometry_of self.now) }
        requires free { (mark_at (view seat.old) header).hold ≡ Free }
        ensures seat { IsStill (table_of self.now) (geometry_of self.now) seat.old seat.new }
        ensures made { IsMade W.files (geometry_of self.now) seat.old.id (Counted header result) (view seat.old) (view seat.new) }
    {
        pool_model::laws::every_run_is_lawful();
        buffer_word::laws::bid_adds_16();
        let index = self.index(WordName::State(header));
        self.add::<Brand>(seat, index, 16, Aim::Count { header })
    }

    /// Takes a count back from a header's state, in one fetch_sub: a pin or a bid of the seat. Gives the word that it
    /// found.
    pub fn count_down(&self, seat: &mut TableSeat, header: u32) -> u64
        requires seat { IsSeatAt (table_of self.now) (geometry_of self.now) seat.old }
        requires header { header < headers_of (geometry_of self.now) }
        requires counted { (mark_at (view seat.old) header).hold ≢ Free }
        ensures seat { IsStill (table_of self.now) (geometry_of self.now) seat.old seat.new }
        ensures made { IsMade W.files (geometry_of self.now) seat.old.id (Uncounted header result) (view seat.old) (view seat.new) }
    {
        pool_model::laws::every_run_is_lawful();
        buffer_word::laws::take_back_subtracts_16();
        let index = self.index(WordName::State(header));
        self.subtract::<Brand>(seat, index, 16, Aim::Uncount { header })
    }
}
