//! A fold as the consumer of a walk.
ghost use Rattle.std.specs.Prelude.{◌≡◌, ◌↔◌, ◌≤◌, ◌+◌, ◌^◌, false, if◌then◌else◌, Err, IsTrue};
ghost use Rattle.fragment_folds.specs.Folding.{rows_in, finished};
ghost use Rattle.fold_consumer.specs.Folding.{GoesBy};

use crate::named_batch::fold_named;
use fragment_folds::{Fold, Overflow};
use fragment_outcome::Answer;
use orc_batches::Consumer;
use orc_streams::ReadColumn;
use orc_values::Column;
use outside::NoMemory;
use std::alloc::Global;
use std::marker::Model;

/// How many rows a fold never comes to.
const TOO_MANY: u64 = 1 << 63;

/// A fold of a scan that takes the rows of a walk.
///
/// Contracts see the columns that the scan names, the fold, and whether it takes no more, since it would have come to 2^63 rows.
#[derive(Drop)]
pub struct FoldConsumer<'a> {
    alloc: Global,
    fold: Fold,
    named: &'a [ReadColumn],
    read: &'a [ReadColumn],
    over: bool,
    given_up: bool,
}

impl<'a> Model for FoldConsumer<'a> {
    ghost use Rattle.std.specs.Prelude.{◌≡◌, false};
    ghost use Rattle.fold_consumer.specs.Folding.{FoldingOf, GoesBy};

    ghost Value = { FoldingOf };

    ghost view = { λ c. record { named = c.named.now; fold = c.fold; over = c.over } };

    ghost invariant = { λ c. c.given_up ≡ false → GoesBy c.fold c.named.now c.read.now };
}

/// How many rows a batch has: as many as its first column.
fn batch_rows(columns: &[Column]) -> usize
    ensures { result ≡ rows_in columns.now }
{
    match columns.first() {
        Some(column) => column.len(),
        None => 0,
    }
}

/// Whether so many rows more are too many.
fn passes(given: u64, more: usize) -> bool
    ensures { IsTrue result ↔ (2 ^ 63 ≤ given + more) }
{
    let more = more as u64;
    given >= TOO_MANY || more >= TOO_MANY - given
}

impl<'a> FoldConsumer<'a> {
    /// A fold that goes by the columns that its scan names, one for each name, and by those that are read: the same by ascending
    /// numbers, each once. Without a column its scan counts all rows.
    pub fn new(
        alloc: Global,
        fold: Fold,
        named: &'a [ReadColumn],
        read: &'a [ReadColumn],
    ) -> FoldConsumer<'a>
        requires { GoesBy fold named.now read.now }
        ensures { result ≡ record { named = named.now; fold = fold; over = false } }
    {
        FoldConsumer {
            alloc,
            fold,
            named,
            read,
            over: false,
            given_up: false,
        }
    }

    /// The answer, or that a total isn't in the 64 bits of `i64`, or that it would have come to 2^63 rows. It takes no memory.
    pub fn finish(self) -> Result<Answer, Overflow>
        ensures { result ≡ (if self.entry.over then Err (record {}) else finished self.entry.fold.state) }
    {
        if self.over {
            return Err(Overflow);
        }
        self.fold.finish()
    }
}

impl<'a> Consumer for FoldConsumer<'a> {
    ghost use Rattle.std.specs.Prelude.{List};
    ghost use Rattle.std.proofs.Common.{ap};
    ghost use Rattle.orc_streams.specs.declared.layout.ReadColumn.{ReadColumn};
    ghost use Rattle.orc_rows.specs.Given.{kinds_in};
    ghost use Rattle.fragment_meaning.specs.ScanColumns.{by_number};
    ghost use Rattle.fold_consumer.specs.Folding.{Ate};
    ghost use Rattle.fold_consumer.specs.FoldingLaws.{Ate-nothing, Ate-on};

    ghost kinds = { λ c. kinds_in (by_number c.named) };

    ghost ate = { λ first pieces last. Ate first pieces last };

    fn batch(&mut self, rows: u32, columns: &mut [Column]) -> Result<(), NoMemory> {
        if self.given_up {
            return Err(NoMemory);
        }
        if self.over {
            return Ok(());
        }
        if passes(self.fold.rows(), batch_rows(columns)) {
            self.over = true;
            return Ok(());
        }
        match fold_named(
            self.alloc,
            &mut self.fold,
            self.named,
            self.read,
            rows,
            columns,
        ) {
            Ok(()) => Ok(()),
            Err(NoMemory) => {
                self.given_up = true;
                Err(NoMemory)
            }
        }
    }

    fn count(&mut self, rows: u64) -> Result<(), NoMemory> {
        if self.given_up {
            return Err(NoMemory);
        }
        if !self.over {
            self.fold.fold_count(rows);
        }
        Ok(())
    }

    ghost ate_nothing = { λ c. Ate-nothing c };

    ghost ate_on = { λ first between last front back p q. Ate-on first between last front back p q };

    ghost ate_kinds = { λ first last pieces p. ap (λ (named : List ReadColumn). kinds_in (by_number named)) p.named };
}
