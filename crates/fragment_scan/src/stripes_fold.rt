//! The rows of a file's stripes, folded.
ghost use Rattle.std.specs.Prelude.{◌≡◌, ◌≤◌, length, All};
ghost use Rattle.orc_streams.specs.Readable.{IsReadable};
ghost use Rattle.orc_tail.specs.Tail.{stripe_end};
ghost use Rattle.fragment_folds.specs.Folding.{begun};
ghost use Rattle.fold_consumer.specs.Folding.{GoesBy};
ghost use Rattle.fragment_scan.specs.Scanned.{FoldsStripes};

use fold_consumer::FoldConsumer;
use fold_consumer::laws::a_walk_folds_the_rows;
use fragment_folds::Fold;
use fragment_outcome::{Failure, Outcome};
use orc_streams::{ReadColumn, StreamReader};
use orc_tail::Tail;
use orc_walk::{Stop, walk_stripes};
use outside::{FileRef, NoMemory, World};
use row_bounds::laws::files_are_bounded;
use scan_failures::{answer_outcome, broken_failure};
use std::alloc::Global;
use tail_faults::laws::stripe_footers_have_three_faults;

/// Folds the rows of a tail's stripes, by the columns that the scan names and by the same in the order in which they are read.
pub(crate) fn fold_stripes<W: World, S: StreamReader<W>>(
    alloc: Global,
    reader: &mut S,
    file: FileRef,
    tail: &Tail,
    named: &[ReadColumn],
    read: &[ReadColumn],
    fold: Fold,
) -> Result<Outcome, NoMemory>
    requires begun { fold ≡ begun fold.scan }
    requires goes_by { GoesBy fold named.now read.now }
    requires few { length read.now ≤ 16 }
    requires few_stripes { length tail.now.stripes ≤ 1000000 }
    requires readable { IsReadable W.files file }
    requires in_file { All (λ stripe. stripe_end stripe ≤ file.len) tail.now.stripes }
    ensures folds { FoldsStripes S.did S.Feed.fault_count W.files file fold.scan tail.now named.now reader.old reader.new result }
{
    a_walk_folds_the_rows();
    files_are_bounded();
    stripe_footers_have_three_faults();
    let mut consumer = FoldConsumer::new(alloc, fold, named, read);
    let stripes = tail.stripes.as_slice();
    match walk_stripes(alloc, reader, file, stripes, read, &mut consumer) {
        Ok(()) => Ok(answer_outcome(consumer.finish())),
        Err(Stop::Fault(fault)) => Ok(Outcome::Failure(broken_failure(fault))),
        Err(Stop::Read(_)) => Ok(Outcome::Failure(Failure::ReadFault)),
        Err(Stop::NoMemory) => Err(NoMemory),
    }
}
