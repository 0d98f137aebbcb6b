//! The steps that seats make, one atomic step each.

ghost use Rattle.std.specs.Prelude.{◌≡◌, ◌≢◌, ℕ, ◌+◌, ◌*◌, ◌/◌, ◌%◌, ◌^◌, ◌<◌, ◌≤◌, length, Some, None, IfOk, OnOk, IfErr};
ghost use Rattle.buddy_arena.specs.Block.{IsClear};
ghost use Rattle.pool_model.specs.Block.{bytes_in, cells_for};
ghost use Rattle.pool_rule.specs.declared.geometry.WordName.TheVariants.{Arena};
ghost use Rattle.pool_rule.specs.declared.word_step.WordStep.TheVariants.{Granted, Looked, LookedAtCell, Missed, Returned};
ghost use Rattle.pool_rule.specs.Layout.{AreSeats, IsBlockIn, IsGeometry, IsWord, block_cells, cell_word, index_of, places_of};
ghost use Rattle.pool_rule.specs.Rule.{first_view};
ghost use Rattle.pool_rule.specs.Seats.{HasNothing, granted_at, joined, part_of, parted};
ghost use Rattle.pool_rule.specs.Tables.{geometry_of, table_of};
ghost use Rattle.pool_rule.specs.Words.{IsSeatAt, IsStill, view};
ghost use Rattle.pool_rule.specs.WordSteps.{IsMade};

use crate::aim::Aim;
use crate::laid::first_words;
use crate::plays::{Count, Joins, Parts};
use crate::{Geometry, LostGrant, Setup, TableSeat, WordName, Words};
use atomic_table::Table;
use buddy_arena::mask;
use outside::World;
use pool_model::Block;
use std::alloc::{AllocError, Global};
use std::marker::Brand;

impl<W: World> Words<W> {
    /// The words of a new pool: every header is released without a count, every bit is clear, and every cell is 0. The
    /// seat has all numbers.
    ///
    /// `AllocError` comes for want of memory alone.
    pub fn open(alloc: Global, setup: Setup) -> Result<(Words<W>, TableSeat), AllocError>
        requires geometry { IsGeometry setup.geometry }
        requires seats { AreSeats setup.seats }
        ensures { IfOk result (λ r. (geometry_of r.0 ≡ setup.geometry)
            × IsSeatAt (table_of r.0) (geometry_of r.0) r.1 × (r.1.id ≡ 0) × (view r.1 ≡ first_view setup)) }
    {
        let words = first_words(alloc, setup.geometry)?;
        let (table, seat) = Table::of_words(alloc, words.as_slice(), &setup)?;
        let words = Words {
            table,
            geometry: setup.geometry,
        };
        Ok((words, seat))
    }

    /// The sizes that the pool was made with.
    pub fn geometry(&self) -> Geometry
        ensures sizes { result ≡ geometry_of self.now }
        ensures in_range { IsGeometry result }
    {
        self.geometry
    }

    /// The index of a word in the table.
    pub(crate) fn index(&self, word: WordName) -> usize
        requires { IsWord (geometry_of self.now) word }
        ensures same { result ≡ index_of (geometry_of self.now) word }
        ensures inside { result < self.now.table.shared.table_id.words }
    {
        let arenas = self.geometry.arenas;
        let index = match word {
            WordName::Arena(arena) => arena,
            WordName::State(header) => arenas + 4 * header,
            WordName::KeyOf(header) => arenas + 4 * header + 1,
            WordName::Touches(header) => arenas + 4 * header + 2,
            WordName::Last(header) => arenas + 4 * header + 3,
            WordName::Clock => arenas + 4 * (8 * self.geometry.sets),
        };
        index as usize
    }

    /// Loads a word. That of a header's key tells the key to a pin of the header, or to a buffer that the seat moves.
    pub fn look(&self, seat: &mut TableSeat, word: WordName) -> u64
        requires seat { IsSeatAt (table_of self.now) (geometry_of self.now) seat.old }
        requires word { IsWord (geometry_of self.now) word }
        ensures seat { IsStill (table_of self.now) (geometry_of self.now) seat.old seat.new }
        ensures made { IsMade W.files (geometry_of self.now) seat.old.id (Looked word result) (view seat.old) (view seat.new) }
    {
        // laws do nothing: each hands the proof a fact
        pool_model::laws::every_run_is_lawful();
        let index = self.index(word);
        self.load::<Brand>(seat, index, Aim::Look { word })
    }

    /// The index of a cell in the table, counted over all minimum blocks.
    pub(crate) fn cell_index(&self, cell: u32) -> usize
        requires { cell < places_of (geometry_of self.now) * block_cells (geometry_of self.now) }
        ensures same { result ≡ cell_word (geometry_of self.now) cell }
        ensures inside { result < self.now.table.shared.table_id.words }
    {
        self.index(WordName::Clock) + 1 + cell as usize
    }

    /// The cell of a block, counted over all minimum blocks.
    pub fn cell_of(&self, block: Block, cell: u32) -> u32
        requires block { IsBlockIn (geometry_of self.now) block }
        requires cell { cell < cells_for (bytes_in (geometry_of self.now).min_block block) }
        ensures same { result ≡ block.place * block_cells (geometry_of self.now) + cell }
        ensures inside { result < places_of (geometry_of self.now) * block_cells (geometry_of self.now) }
    {
        block.place * (self.geometry.min_block / 8) + cell
    }

    /// Loads a cell, counted over all minimum blocks.
    pub fn look_at_cell(&self, seat: &mut TableSeat, cell: u32) -> u64
        requires seat { IsSeatAt (table_of self.now) (geometry_of self.now) seat.old }
        requires cell { cell < places_of (geometry_of self.now) * block_cells (geometry_of self.now) }
        ensures seat { IsStill (table_of self.now) (geometry_of self.now) seat.old seat.new }
        ensures made { IsMade W.files (geometry_of self.now) seat.old.id (LookedAtCell cell result) (view seat.old) (view seat.new) }
    {
        pool_model::laws::every_run_is_lawful();
        let index = self.cell_index(cell);
        self.load::<Brand>(seat, index, Aim::LookAtCell { cell })
    }

    /// Takes a block: one exchange of its arena's word, from the word that is expected to the one with the block's bits
    /// set besides.
    ///
    /// The block is clear in the expected word. `LostGrant` comes only where the exchange found another word, and then
    /// the pool is as it was.
    pub fn take_block(&self, seat: &mut TableSeat, block: Block, seen: u64) -> Result<(), LostGrant>
        requires seat { IsSeatAt (table_of self.now) (geometry_of self.now) seat.old }
        requires block { IsBlockIn (geometry_of self.now) block }
        requires clear { IsClear seen (block.place % 64) block.order }
        ensures seat { IsStill (table_of self.now) (geometry_of self.now) seat.old seat.new }
        ensures ok { OnOk result (IsMade W.files (geometry_of self.now) seat.old.id (Granted block seen) (view seat.old) (view seat.new)) }
        ensures err { IfErr result (λ e. (e.saw ≢ seen)
            × IsMade W.files (geometry_of self.now) seat.old.id (Missed (Arena (block.place / 64)) e.saw) (view seat.old) (view seat.new)) }
    {
        buddy_arena::laws::block_in_arena();
        buddy_arena::laws::covers_in_arena();
        buddy_arena::laws::setting_takes();
        let bits = mask(block.place % 64, block.order);
        let arena = (block.place / 64) as usize;
        let saw = self.exchange::<Brand>(seat, arena, seen, seen | bits, Aim::Take { block, seen });
        if saw == seen {
            Ok(())
        } else {
            Err(LostGrant { saw })
        }
    }

    /// Gives a granted block back: one fetch_and clears its bits. Gives the word that it found.
    pub fn give_block(&self, seat: &mut TableSeat, block: Block) -> u64
        requires seat { IsSeatAt (table_of self.now) (geometry_of self.now) seat.old }
        requires block { IsBlockIn (geometry_of self.now) block }
        requires granted { granted_at (view seat.old) block.place ≡ Some block.order }
        ensures seat { IsStill (table_of self.now) (geometry_of self.now) seat.old seat.new }
        ensures made { IsMade W.files (geometry_of self.now) seat.old.id (Returned block result) (view seat.old) (view seat.new) }
    {
        buddy_arena::laws::block_in_arena();
        buddy_arena::laws::covers_in_arena();
        buddy_arena::laws::clearing_gives();
        let bits = mask(block.place % 64, block.order);
        let arena = (block.place / 64) as usize;
        self.and::<Brand>(seat, arena, !bits, Aim::Return { block })
    }

    /// Parts a seat. How many numbers go is known to the proof alone, so the caller picks it.
    fn part<C: Count>(&self, seat: &mut TableSeat, numbers: u32) -> TableSeat
        requires seat { IsSeatAt (table_of self.now) (geometry_of self.now) seat.old }
        requires numbers { (0 < numbers) × (numbers < length (view seat.old).numbers) }
        requires count { C.count ≡ numbers }
        ensures seat { IsStill (table_of self.now) (geometry_of self.now) seat.old seat.new }
        ensures new { IsSeatAt (table_of self.now) (geometry_of self.now) result }
        ensures view { view seat.new ≡ parted numbers (view seat.old) }
        ensures part { view result ≡ part_of numbers (view seat.old) }
    {
        let _count = numbers;
        self.table.shared.split_seat::<Parts<C>>(seat)
    }

    /// Parts a seat: the new one has its last numbers, so many of them, and nothing else.
    pub fn split(&self, seat: &mut TableSeat, numbers: u32) -> TableSeat
        requires seat { IsSeatAt (table_of self.now) (geometry_of self.now) seat.old }
        requires numbers { (0 < numbers) × (numbers < length (view seat.old).numbers) }
        ensures seat { IsStill (table_of self.now) (geometry_of self.now) seat.old seat.new }
        ensures new { IsSeatAt (table_of self.now) (geometry_of self.now) result }
        ensures view { view seat.new ≡ parted numbers (view seat.old) }
        ensures part { view result ≡ part_of numbers (view seat.old) }
    {
        self.part::<Brand>(seat, numbers)
    }

    /// Joins a seat that has nothing of any header and no block to another, which gets its numbers back.
    pub fn join(&self, seat: &mut TableSeat, other: TableSeat)
        requires seat { IsSeatAt (table_of self.now) (geometry_of self.now) seat.old }
        requires other { IsSeatAt (table_of self.now) (geometry_of self.now) other }
        requires nothing { HasNothing (view other) }
        ensures seat { IsStill (table_of self.now) (geometry_of self.now) seat.old seat.new }
        ensures view { view seat.new ≡ joined (view seat.old) (view other) }
    {
        self.table.shared.join_seat::<Joins>(seat, other)
    }
}
