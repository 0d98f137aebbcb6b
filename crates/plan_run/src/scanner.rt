//! Whoever scans.
ghost use Rattle.std.specs.Prelude.{◌≡◌, ℕ, List, Ok, IfOk, IsSome};
ghost use Rattle.outside.specs.Cause.{Cause};
ghost use Rattle.fragment_plan.specs.declared.fragment.Fragment.{Fragment};
ghost use Rattle.fragment_outcome.specs.declared.outcome.Outcome.{Outcome};
ghost use Rattle.fragment_folds.specs.Scans.{scan_at};
ghost use Rattle.plan_run.specs.Run.{IsScanned, read_fault};
ghost use Rattle.plan_run.specs.Words.{ScanHasWords};

use fragment_outcome::Outcome;
use fragment_plan::Plan;
use outside::{NoMemory, World};
use std::alloc::Global;

/// Whoever scans the files of a world for the fragments of plans: over a store directly, or through a cache.
pub trait Scanner<W: World> {
    /// How often a read has failed: a number that doesn't fall.
    ghost fault_count: { Self → ℕ };

    /// It works with the same things: whoever lent them knows them again by this.
    ghost same: { Self → Self → Type 0 };

    /// It scanned for that fragment of that plan, with that outcome: what it did, from before to after.
    ghost scanned: { Self → List Fragment → ℕ → Outcome → Self → Type 0 };

    /// Scans a file for a fragment of a plan, which is a scan, and answers what becomes of it.
    ///
    /// Where the world tells its files, it is what the scan means, unless it is a read fault. A read fault comes only where
    /// the count of faults rose. It names no source, and a fault in it has words. Refuses only for want of memory.
    fn scan(&mut self, alloc: Global, plan: &Plan, fragment: u32) -> Result<Outcome, NoMemory>
        requires is_scan { IsSome (scan_at plan.now fragment) }
        ensures means { IfOk result (IsScanned W.files plan.now fragment) }
        ensures worded { IfOk result ScanHasWords }
        ensures same { same self.old self.new }
        ensures scanned { IfOk result (λ o. scanned self.old plan.now fragment o self.new) }
        ensures cause { Cause (fault_count self.old) (fault_count self.new) (result ≡ Ok read_fault) };

    /// Where nothing was done, it works with the same things.
    ghost same_as_itself: { (scanner : Self) → same scanner scanner };

    /// Where one call follows another, it works with the same things.
    ghost same_on: { (first between last : Self) → same first between → same between last → same first last };
}
