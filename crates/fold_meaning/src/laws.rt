//! Laws of folds, as contracts of functions that do nothing.
ghost use Rattle.std.specs.Prelude.{List};
ghost use Rattle.orc_values.specs.Column.{RowValues};
ghost use Rattle.fragment_plan.specs.declared.fragment.Scan.{Scan};
ghost use Rattle.batch_masks.specs.Rows.{passing};
ghost use Rattle.fragment_folds.specs.Folding.{begun, folded, finished};
ghost use Rattle.fold_meaning.specs.Meaning.{IsAnswerOf};

use group_counts::laws::counts_are_of_the_list;

/// The answer of a fold of all rows of a scan is what is meant by its rows that pass.
pub fn a_fold_answers_what_is_meant()
    ensures { (scan : Scan) (rows : List RowValues) →
        IsAnswerOf scan.fold (passing scan.tests rows) (finished (folded (begun scan) rows).state) }
{
    counts_are_of_the_list();
}
