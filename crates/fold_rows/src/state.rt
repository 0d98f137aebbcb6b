//! What a fold has.
ghost use Rattle.std.specs.Prelude.{◌≡◌};
ghost use Rattle.fold_rows.specs.States.{nothing};

use batch_masks::Total;
use fragment_outcome::Table;
use fragment_plan::FoldKind;
use group_counts::Counts;
use std::alloc::Global;

/// What a fold has of the rows so far that pass.
#[derive(Drop)]
pub enum State {
    /// Their listed columns.
    Rows(Table),
    /// How many they are; the greatest number where they are more.
    Count(u64),
    /// The total of a column's numbers.
    Sum(Total),
    /// How often each value of a column stands in them.
    Group(Counts),
}

/// What a fold has of no rows. It takes no memory.
pub fn nothing_of(alloc: Global, fold: &FoldKind) -> State
    ensures { result ≡ nothing fold.now }
{
    match fold {
        FoldKind::Rows(_) => State::Rows(Table::new(Vec::new(alloc))),
        FoldKind::Count => State::Count(0),
        FoldKind::Sum(_) => State::Sum(Total {
            some: false,
            sum: 0,
        }),
        FoldKind::Group(_) => State::Group(Counts::new(alloc)),
    }
}
