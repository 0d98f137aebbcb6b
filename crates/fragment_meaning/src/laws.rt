//! Laws of meanings, as contracts of functions that do nothing.
ghost use Rattle.fragment_meaning.specs.Laws.{OutcomesAreOne, ScansHaveOutcomes};

use orc_rows::laws::{rows_are_one, stripes_have_rows_or_a_fault};

/// A scan has one outcome over the files of a run: its answer, or one failure.
pub fn a_scan_has_one_outcome()
    ensures some { ScansHaveOutcomes }
    ensures one { OutcomesAreOne }
{
    stripes_have_rows_or_a_fault();
    rows_are_one();
}
