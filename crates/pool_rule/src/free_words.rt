//! The steps on words that stand for nothing of the pool: touches and last tick of a header, and the clock.

ghost use Rattle.std.specs.Prelude.{◌≡◌, ◌+◌, ◌%◌, ◌^◌, max};
ghost use Rattle.pool_rule.specs.declared.word_step.WordStep.TheVariants.{Updated};
ghost use Rattle.pool_rule.specs.Layout.{IsFreeWord};
ghost use Rattle.pool_rule.specs.Tables.{geometry_of, table_of};
ghost use Rattle.pool_rule.specs.Words.{IsSeatAt, IsStill, view};
ghost use Rattle.pool_rule.specs.WordSteps.{IsMade};

use crate::aim::Aim;
use crate::{TableSeat, WordName, Words};
use outside::World;
use std::marker::Brand;

impl<W: World> Words<W> {
    /// Adds 1 to a free word, wrapping at 64 bits: one fetch_add. Gives the word that it found.
    pub fn increase(&self, seat: &mut TableSeat, word: WordName) -> u64
        requires seat { IsSeatAt (table_of self.now) (geometry_of self.now) seat.old }
        requires free { IsFreeWord (geometry_of self.now) word }
        ensures seat { IsStill (table_of self.now) (geometry_of self.now) seat.old seat.new }
        ensures made { let step = Updated word result ((result + 1) % 2 ^ 64) in
            IsMade W.files (geometry_of self.now) seat.old.id step (view seat.old) (view seat.new) }
    {
        let index = self.index(word);
        self.add::<Brand>(seat, index, 1, Aim::Increase { word })
    }

    /// Raises a free word to a number, where that is greater: one fetch_max. Gives the word that it found.
    pub fn raise(&self, seat: &mut TableSeat, word: WordName, to: u64) -> u64
        requires seat { IsSeatAt (table_of self.now) (geometry_of self.now) seat.old }
        requires free { IsFreeWord (geometry_of self.now) word }
        ensures seat { IsStill (table_of self.now) (geometry_of self.now) seat.old seat.new }
        ensures made { let step = Updated word result (max result to) in
            IsMade W.files (geometry_of self.now) seat.old.id step (view seat.old) (view seat.new) }
    {
        let index = self.index(word);
        self.raise_to::<Brand>(seat, index, to, Aim::Raise { word, to })
    }

    /// Puts 0 in the place of a free word: one swap. Gives the word that it found.
    pub fn clear(&self, seat: &mut TableSeat, word: WordName) -> u64
        requires seat { IsSeatAt (table_of self.now) (geometry_of self.now) seat.old }
        requires free { IsFreeWord (geometry_of self.now) word }
        ensures seat { IsStill (table_of self.now) (geometry_of self.now) seat.old seat.new }
        ensures made { let step = Updated word result 0 in
            IsMade W.files (geometry_of self.now) seat.old.id step (view seat.old) (view seat.new) }
    {
        let index = self.index(word);
        self.swap::<Brand>(seat, index, 0, Aim::Clear { word })
    }
}
