//! What takes the rows of a walk.
ghost use Rattle.std.specs.Prelude.{◌≡◌, ◌≤◌, ℕ, List, [], ◌∷◌, ◌++◌, length, OnOk};
ghost use Rattle.orc_batches.specs.Batch.{IsBatch, Piece, columns as of_columns, count as of_count};

use orc_columns::Column;
use outside::NoMemory;

/// What takes the rows of a walk, piece by piece, in order.
///
/// Whoever folds rows, sums a column or hands batches on is one, and knows neither files nor streams.
pub trait Consumer {
    /// The kinds of the columns that it takes, in their order.
    ghost kinds: { Self → List ℕ };

    /// That it went from the first state to the last by these pieces.
    ghost ate: { Self → List Piece → Self → Type 0 };

    /// Takes a batch: columns of its kinds, each with this many rows, at most 1,024.
    ///
    /// The columns are lent, and what they hold afterwards is the consumer's to choose, so it may keep their memory. After a
    /// refusal, which is for want of memory, nothing is said of it.
    fn batch(&mut self, rows: u32, columns: &mut [Column]) -> Result<(), NoMemory>
        requires few { rows ≤ 1024 }
        requires batch { IsBatch (kinds self.old) rows columns.old }
        ensures as_many { length columns.new ≡ length columns.old }
        ensures ate { OnOk result (ate self.old (of_columns columns.old ∷ []) self.new) };

    /// Takes the number of a stripe's rows, where it takes no column.
    ///
    /// After a refusal, which is for want of memory, nothing is said of it.
    fn count(&mut self, rows: u64) -> Result<(), NoMemory>
        requires no_column { kinds self.old ≡ [] }
        ensures ate { OnOk result (ate self.old (of_count rows ∷ []) self.new) };

    /// Where nothing was done, it took nothing.
    ghost ate_nothing: { (consumer : Self) → ate consumer [] consumer };

    /// Pieces that follow one another are one list.
    ghost ate_on: { (first between last : Self) (front back : List Piece)
        → ate first front between → ate between back last → ate first (front ++ back) last };

    /// It takes columns of the same kinds all along.
    ghost ate_kinds: { (first last : Self) (pieces : List Piece) → ate first pieces last → kinds last ≡ kinds first };
}
