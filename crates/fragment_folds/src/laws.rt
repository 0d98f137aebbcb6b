//! Laws of folds and merges, as contracts of functions that do nothing.
ghost use Rattle.std.specs.Prelude.{◌≡◌, ◌++◌, List};
ghost use Rattle.orc_values.specs.Column.{RowValues};
ghost use Rattle.fragment_outcome.specs.declared.answer.Answer.{Answer};
ghost use Rattle.fragment_folds.specs.Folding.{FoldOf, folded};
ghost use Rattle.fragment_folds.specs.Merging.{MergeOf, merged_all};

/// Folding rows and then others is folding them all, however they are cut.
pub fn any_cutting_is_one_fold()
    ensures { (f : FoldOf) (front back : List RowValues) → folded (folded f front) back ≡ folded f (front ++ back) }
{}

/// Merging answers and then others is merging them all, in order.
pub fn merges_join()
    ensures { (m : MergeOf) (front back : List Answer) → merged_all (merged_all m front) back ≡ merged_all m (front ++ back) }
{}
