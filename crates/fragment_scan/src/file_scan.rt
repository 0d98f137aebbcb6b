//! The scan of a fragment over a file.
ghost use Rattle.std.specs.Prelude.{◌≡◌, ◌<◌, ◌≤◌, [], length, Some, IsSome, All};
ghost use Rattle.outside.specs.Files.{IsFile};
ghost use Rattle.orc_streams.specs.Readable.{IsReadable};
ghost use Rattle.orc_tail.specs.Tail.{stripe_end};
ghost use Rattle.fragment_plan.specs.declared.fragment.Scan.{Scan};
ghost use Rattle.fragment_folds.specs.Scans.{scan_at};
ghost use Rattle.fragment_folds.specs.Folding.{begun};
ghost use Rattle.fold_consumer.specs.Folding.{CountsAll};
ghost use Rattle.fragment_scan.specs.Scanned.{ScansFile, ScansParts};

use crate::stripes_fold::fold_stripes;
use empty_scans::laws::scans_without_columns_count;
use fragment_folds::Fold;
use fragment_outcome::Outcome;
use fragment_plan::{Plan, Scan, Work};
use orc_streams::StreamReader;
use orc_tail::{Tail, read_tail};
use orc_walk::Stop;
use outside::{FileRef, NoMemory, World};
use scan_columns::{by_number, find_columns};
use scan_failures::tail_outcome;
use std::alloc::Global;

/// The scan that a fragment is.
pub(crate) fn scan_of(plan: &Plan, fragment: u32) -> &Scan
    requires { IsSome (scan_at plan.now fragment) }
    ensures scan { scan_at plan.now fragment ≡ Some result.now }
    ensures few { length result.now.columns ≤ 16 }
    ensures counts { result.now.columns ≡ [] → CountsAll result.now }
{
    scans_without_columns_count();
    match &plan.fragments()[fragment as usize].work {
        Work::Scan(scan) => scan,
        Work::Merge(_) => unreachable!(),
    }
}

/// Scans a file whose tail was found: it finds the columns that the scan names, and folds the rows of all stripes.
fn scan_parts<W: World, S: StreamReader<W>>(
    alloc: Global,
    reader: &mut S,
    file: FileRef,
    scan: &Scan,
    tail: &Tail,
    fold: Fold,
) -> Result<Outcome, NoMemory>
    requires begun { fold ≡ begun scan.now }
    requires few { length scan.now.columns ≤ 16 }
    requires counts { scan.now.columns ≡ [] → CountsAll scan.now }
    requires few_stripes { length tail.now.stripes ≤ 1000000 }
    requires readable { IsReadable W.files file }
    requires in_file { All (λ stripe. stripe_end stripe ≤ file.len) tail.now.stripes }
    ensures scans { ScansParts S.did S.Feed.fault_count W.files file scan.now tail.now reader.old reader.new result }
{
    let named = match find_columns(alloc, scan, tail) {
        Ok(named) => named,
        Err(Stop::Fault(why)) => return Ok(Outcome::Failure(why)),
        Err(Stop::Read(_)) => unreachable!(),
        Err(Stop::NoMemory) => return Err(NoMemory),
    };
    let read = match by_number(alloc, named.as_slice()) {
        Ok(read) => read,
        Err(NoMemory) => return Err(NoMemory),
    };
    fold_stripes(
        alloc,
        reader,
        file,
        tail,
        named.as_slice(),
        read.as_slice(),
        fold,
    )
}

/// Scans a file, as a fragment of a plan that is a scan asks it.
///
/// It reads the file's last 256 bytes, or the whole file where that is shorter, and its footer; then, unless the scan can't read its
/// columns, stripe by stripe the stripe's footer and the read columns by ascending numbers, each once. A scan without a column looks at
/// no stripe's footer. The file's number is below 4,096.
///
/// The outcome is the answer of the scan's fold, or the first failure: the file's tail, the first column that is missing, the first of a
/// wrong kind, the least stripe that fails, and then `Overflow`. Where the file is told, it is the scan's outcome on its bytes, unless
/// it is `ReadFault`, which comes only where the reader's faults rose in this call. `NoMemory` comes only where memory was refused.
///
/// Source: Apache ORC specification v1 for what a file has; the outcomes and their order are this project's own.
pub fn scan_file<W: World, S: StreamReader<W>>(
    alloc: Global,
    reader: &mut S,
    file: FileRef,
    plan: &Plan,
    fragment: u32,
) -> Result<Outcome, NoMemory>
    requires scan { IsSome (scan_at plan.now fragment) }
    requires number { file.number < 4096 }
    requires is_file { IsFile W.files file }
    ensures scans { (scan : Scan) → scan_at plan.now fragment ≡ Some scan
        → ScansFile S.did S.Feed.fault_count W.files file scan reader.old reader.new result }
{
    let scan = scan_of(plan, fragment);
    let fold = match Fold::new(alloc, plan, fragment) {
        Ok(fold) => fold,
        Err(NoMemory) => return Err(NoMemory),
    };
    let tail = match read_tail(alloc, reader, file) {
        Ok(tail) => tail,
        Err(fault) => return tail_outcome(fault),
    };
    scan_parts(alloc, reader, file, scan, &tail, fold)
}
