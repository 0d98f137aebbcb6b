//! A law of folds over walks, as the contract of a function that does nothing.
ghost use Rattle.fold_consumer.specs.Laws.{WalksFoldTheRows};

use fragment_folds::laws::any_cutting_is_one_fold;

/// Folding the pieces of a walk over a file's stripes, each in the order of the scan's names, is folding all rows of the file in that
/// order. Only where the file has 2^63 rows or more would a batch bring the fold to as many.
pub fn a_walk_folds_the_rows()
    ensures { WalksFoldTheRows }
{
    any_cutting_is_one_fold();
}
