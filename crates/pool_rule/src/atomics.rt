//! The atomic operations on a pool's words, each once. What a step tells is the caller's pick, by
//! its aim: it shows that the step keeps the rule, whatever the words are then.

ghost use Rattle.std.specs.Prelude.{◌≡◌, ◌==◌, ◌+◌, ◌-◌, ◌%◌, ◌^◌, ◌<◌, bit_and, max};
ghost use prog.Atomic.{either};
ghost use Rattle.pool_rule.specs.Plays.{IsAllowed};
ghost use Rattle.pool_rule.specs.Tables.{setup_of, table_of};
ghost use Rattle.pool_rule.specs.Words.{IsLeft, view};

use crate::aim::Aim;
use crate::plays::{Telling, Tells};
use crate::{TableSeat, Words};
use outside::World;

impl<W: World> Words<W> {
    /// Loads a word.
    pub(crate) fn load<C: Telling>(&self, seat: &mut TableSeat, index: usize, _aim: Aim) -> u64
        requires seat { seat.old.table_id ≡ table_of self.now }
        requires index { index < (table_of self.now).words }
        requires allowed { IsAllowed W.files (setup_of self.now) seat.old.id (view seat.old) index (λ n. n) C.told }
        ensures seat { IsLeft seat.old seat.new }
        ensures told { C.told result (view seat.old) (view seat.new) }
    {
        self.table.shared.load::<Tells<C>>(seat, index)
    }

    /// Stores a word.
    pub(crate) fn store<C: Telling>(&self, seat: &mut TableSeat, index: usize, word: u64, _aim: Aim)
        requires seat { seat.old.table_id ≡ table_of self.now }
        requires index { index < (table_of self.now).words }
        requires allowed { IsAllowed W.files (setup_of self.now) seat.old.id (view seat.old) index (λ _. word) (λ _. C.told word) }
        ensures seat { IsLeft seat.old seat.new }
        ensures told { C.told word (view seat.old) (view seat.new) }
    {
        self.table.shared.store::<Tells<C>>(seat, index, word);
    }

    /// Puts another word in the place of the expected one. Gives the word that it found.
    pub(crate) fn exchange<C: Telling>(
        &self,
        seat: &mut TableSeat,
        index: usize,
        expected: u64,
        word: u64,
        _aim: Aim,
    ) -> u64
        requires seat { seat.old.table_id ≡ table_of self.now }
        requires index { index < (table_of self.now).words }
        requires allowed { IsAllowed W.files (setup_of self.now) seat.old.id (view seat.old) index
            (λ n. either (n == expected) word n) C.told }
        ensures seat { IsLeft seat.old seat.new }
        ensures told { C.told result (view seat.old) (view seat.new) }
    {
        self.table
            .shared
            .compare_exchange::<Tells<C>>(seat, index, expected, word)
    }

    /// Clears the bits that aren't in the mask. Gives the word that it found.
    pub(crate) fn and<C: Telling>(
        &self,
        seat: &mut TableSeat,
        index: usize,
        mask: u64,
        _aim: Aim,
    ) -> u64
        requires seat { seat.old.table_id ≡ table_of self.now }
        requires index { index < (table_of self.now).words }
        requires allowed { IsAllowed W.files (setup_of self.now) seat.old.id (view seat.old) index (λ n. bit_and n mask) C.told }
        ensures seat { IsLeft seat.old seat.new }
        ensures told { C.told result (view seat.old) (view seat.new) }
    {
        self.table.shared.fetch_and::<Tells<C>>(seat, index, mask)
    }

    /// Adds to a word. Gives the word that it found.
    pub(crate) fn add<C: Telling>(
        &self,
        seat: &mut TableSeat,
        index: usize,
        step: u64,
        _aim: Aim,
    ) -> u64
        requires seat { seat.old.table_id ≡ table_of self.now }
        requires index { index < (table_of self.now).words }
        requires allowed { IsAllowed W.files (setup_of self.now) seat.old.id (view seat.old) index (λ n. (n + step) % 2 ^ 64) C.told }
        ensures seat { IsLeft seat.old seat.new }
        ensures told { C.told result (view seat.old) (view seat.new) }
    {
        self.table.shared.fetch_add::<Tells<C>>(seat, index, step)
    }

    /// Puts another word in its place. Gives the word that it found.
    pub(crate) fn swap<C: Telling>(
        &self,
        seat: &mut TableSeat,
        index: usize,
        word: u64,
        _aim: Aim,
    ) -> u64
        requires seat { seat.old.table_id ≡ table_of self.now }
        requires index { index < (table_of self.now).words }
        requires allowed { IsAllowed W.files (setup_of self.now) seat.old.id (view seat.old) index (λ _. word) C.told }
        ensures seat { IsLeft seat.old seat.new }
        ensures told { C.told result (view seat.old) (view seat.new) }
    {
        self.table.shared.swap::<Tells<C>>(seat, index, word)
    }

    /// Raises a word to another, where that is greater. Gives the word that it found.
    pub(crate) fn raise_to<C: Telling>(
        &self,
        seat: &mut TableSeat,
        index: usize,
        word: u64,
        _aim: Aim,
    ) -> u64
        requires seat { seat.old.table_id ≡ table_of self.now }
        requires index { index < (table_of self.now).words }
        requires allowed { IsAllowed W.files (setup_of self.now) seat.old.id (view seat.old) index (λ n. max n word) C.told }
        ensures seat { IsLeft seat.old seat.new }
        ensures told { C.told result (view seat.old) (view seat.new) }
    {
        self.table.shared.fetch_max::<Tells<C>>(seat, index, word)
    }

    /// Subtracts from a word. Gives the word that it found.
    pub(crate) fn subtract<C: Telling>(
        &self,
        seat: &mut TableSeat,
        index: usize,
        step: u64,
        _aim: Aim,
    ) -> u64
        requires seat { seat.old.table_id ≡ table_of self.now }
        requires index { index < (table_of self.now).words }
        requires allowed { IsAllowed W.files (setup_of self.now) seat.old.id (view seat.old) index
            (λ n. (n + (2 ^ 64 - step)) % 2 ^ 64) C.told }
        ensures seat { IsLeft seat.old seat.new }
        ensures told { C.told result (view seat.old) (view seat.new) }
    {
        self.table.shared.fetch_sub::<Tells<C>>(seat, index, step)
    }
}
