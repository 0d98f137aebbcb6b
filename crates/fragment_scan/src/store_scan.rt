//! The scan of a fragment over the files of a store.
ghost use Rattle.std.specs.Prelude.{◌≡◌, ◌≢◌, ◌<◌, ℕ, List, Some, Ok, IsSome, IfOk};
ghost use Rattle.outside.specs.Cause.{Cause};
ghost use Rattle.outside.specs.Files.{Files, HasBytes, IsFile};
ghost use Rattle.fragment_plan.specs.declared.fragment.Scan.{Scan};
ghost use Rattle.fragment_outcome.specs.declared.failure.Failure.TheVariants as failure;
ghost use Rattle.fragment_folds.specs.Scans.{scan_at};
ghost use Rattle.fragment_meaning.specs.ScanOutcome.{failed, IsOutcomeOn, ScanMeans};
ghost use Rattle.fragment_scan.specs.Outcomes.{IsOutcomeFor};
ghost use Rattle.fragment_scan.specs.Scanned.{IsReadFault, IfDecided};

use crate::file_scan::{scan_file, scan_of};
use fragment_outcome::{Failure, Outcome};
use fragment_plan::Plan;
use orc_streams::{DirectReader, StoredStreams};
use outside::{FileRef, NoMemory, Store, World};
use std::alloc::Global;

/// Scans a file that was found in a store.
fn scan_found<W: World, S: Store<W>>(
    alloc: Global,
    store: &mut S,
    streams: &mut StoredStreams,
    file: FileRef,
    plan: &Plan,
    fragment: u32,
) -> Result<Outcome, NoMemory>
    requires scan { IsSome (scan_at plan.now fragment) }
    requires number { file.number < 4096 }
    requires is_file { IsFile W.files file }
    ensures means { (scan : Scan) → scan_at plan.now fragment ≡ Some scan → (bytes : List ℕ) → HasBytes W.files file bytes
        → IfDecided result (IsOutcomeOn scan (Some bytes)) }
    ensures is_for { (scan : Scan) → scan_at plan.now fragment ≡ Some scan → IfOk result (IsOutcomeFor scan) }
    ensures cause { Cause (S.fault_count store.old) (S.fault_count store.new) (IsReadFault result) }
{
    let mut reader = DirectReader::<W, S>::new(store, streams);
    scan_file(alloc, &mut reader, file, plan, fragment)
}

/// Scans a file of a store, as a fragment of a plan that is a scan asks it: it finds the file by its name, and reads it directly.
///
/// The outcome is `NoFile` where no file has the name, and else that of `scan_file`. Where the store's files are told, it is what the scan
/// means, unless it is `ReadFault`, which comes only where the store's faults rose in this call. An answer is of the form of the scan's
/// fold, and a failure is none of a merge. `NoMemory` comes only where memory was refused.
///
/// Source: Apache ORC specification v1 for what a file has; the outcomes and their order are this project's own.
pub fn scan<W: World, S: Store<W>>(
    alloc: Global,
    store: &mut S,
    plan: &Plan,
    fragment: u32,
) -> Result<Outcome, NoMemory>
    requires scan { IsSome (scan_at plan.now fragment) }
    ensures means { IfOk result (λ o. (files : Files) (scan : Scan) → W.files ≡ Some files → scan_at plan.now fragment ≡ Some scan
        → o ≢ failed failure.ReadFault → ScanMeans files scan o) }
    ensures is_for { IfOk result (λ o. (scan : Scan) → scan_at plan.now fragment ≡ Some scan → IsOutcomeFor scan o) }
    ensures cause { Cause (S.fault_count store.old) (S.fault_count store.new) (result ≡ Ok (failed failure.ReadFault)) }
{
    let found = match store.find(scan_of(plan, fragment).file.as_str()) {
        Ok(Some(found)) => found,
        Ok(None) => return Ok(Outcome::Failure(Failure::NoFile)),
        Err(_) => return Ok(Outcome::Failure(Failure::ReadFault)),
    };
    let mut streams = StoredStreams::new(alloc);
    scan_found(alloc, store, &mut streams, found, plan, fragment)
}
