ghost use Rattle.std.specs.Prelude.{◌≡◌};
ghost use Rattle.pool_rule.specs.Layout.{AreSeats, IsGeometry, word_count};

use crate::{Geometry, PoolRule, Setup, View};
use atomic_table::Table;
use outside::World;
use std::alloc::Global;

/// The words of a pool. Any number of threads may make steps on them at once, each with a seat of its own.
///
/// No step but `open` takes memory, and none waits.
#[derive(Drop)]
pub struct Words<W: World> {
    pub(crate) table: Table<(), View, Setup, PoolRule<W>, Global>,
    pub(crate) geometry: Geometry,
    pub ghost all_words: { table.shared.table_id.words ≡ word_count table.shared.key.geometry },
    pub ghost told: { table.shared.key.geometry ≡ geometry },
    pub ghost sized: { IsGeometry table.shared.key.geometry },
    pub ghost few: { AreSeats table.shared.key.seats },
}
