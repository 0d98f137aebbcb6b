//! The fold of a scan's rows.
ghost use Rattle.std.specs.Prelude.{◌≡◌, ◌+◌, ◌^◌, ◌<◌, [], All, Some, IsSome, IfOk, OnOk, length, replicate};
ghost use Rattle.std.specs.Option.{unwrap_or};
ghost use Rattle.batch_masks.specs.Rows.{rows_of, passing};
ghost use Rattle.batch_masks.specs.Totals.{SumOfFew};
ghost use Rattle.fragment_plan.specs.declared.fragment.FoldKind.TheVariants as kind;
ghost use Rattle.fragment_plan.specs.Bounds.{ScanInBounds};
ghost use Rattle.fold_rows.specs.declared.state.State.TheVariants as state;
ghost use Rattle.fragment_folds.specs.Scans.{scan_at as scan_of, empty_scan};
ghost use Rattle.fold_rows.specs.States.{with_rows, sum_in, nothing};
ghost use Rattle.fragment_folds.specs.Folding.{begun, folded, finished, rows_in};

use crate::faults::Overflow;
use batch_masks::{Total, mask_of};
use fold_rows::{State, count_with, nothing_of, with_kept_rows, with_whole};
use fragment_outcome::{Answer, Groups};
use fragment_plan::{Plan, Scan, Work};
use orc_values::Column;
use outside::NoMemory;
use std::alloc::Global;
use std::marker::Model;
use std::mem;

/// What a scan of a plan makes of its rows, which are given batch by batch.
///
/// Contracts see the scan, how many rows were given, and what the fold has of them.
#[derive(Drop)]
pub struct Fold {
    plan: Plan,
    fragment: u32,
    rows: u64,
    state: State,
}

impl Model for Fold {
    ghost use Rattle.std.specs.Prelude.{IsSome};
    ghost use Rattle.std.specs.Option.{unwrap_or};
    ghost use Rattle.batch_masks.specs.Totals.{SumOfFew};
    ghost use Rattle.fragment_folds.specs.Scans.{scan_at, empty_scan};
    ghost use Rattle.fold_rows.specs.States.{sum_in};
    ghost use Rattle.fragment_folds.specs.Folding.{FoldOf};

    ghost Value = { FoldOf };

    ghost view = { λ f. record { scan = unwrap_or (scan_at f.plan f.fragment) empty_scan; rows = f.rows; state = f.state } };

    ghost invariant = { λ f. (IsSome (scan_at f.plan f.fragment)) × (SumOfFew f.rows (sum_in f.state)) };
}

/// The scan that a fragment is.
fn scan_at(plan: &Plan, fragment: u32) -> &Scan
    requires { IsSome (scan_of plan.now fragment) }
    ensures scan { scan_of plan.now fragment ≡ Some result.now }
    ensures bounds { ScanInBounds result.now }
{
    match &plan.fragments()[fragment as usize].work {
        Work::Scan(scan) => scan,
        Work::Merge(_) => unreachable!(),
    }
}

/// How many rows a batch has: as many as its first column.
fn batch_rows(columns: &[Column]) -> usize
    ensures { result ≡ rows_in columns.now }
{
    match columns.first() {
        Some(column) => column.len(),
        None => 0,
    }
}

/// What a fold has with those rows more of a batch that pass, by a flag for each.
fn with_passing(
    alloc: Global,
    scan: &Scan,
    state: State,
    given: u64,
    columns: &[Column],
    rows: usize,
) -> Result<State, NoMemory>
    requires bounds { ScanInBounds scan.now }
    requires width { length columns.now ≡ length scan.now.columns }
    requires rows { All (λ column. length column ≡ rows) columns.now }
    requires few { given + rows < 2 ^ 63 }
    requires bound { SumOfFew given (sum_in state) }
    ensures state { IfOk result (λ new. new ≡ with_rows scan.now.fold state (passing scan.now.tests (rows_of rows columns.now))) }
    ensures bound { IfOk result (λ new. SumOfFew (given + rows) (sum_in new)) }
{
    let mut mask = mask_of(alloc, scan.tests.as_slice(), columns, rows)?;
    with_kept_rows(alloc, &scan.fold, state, given, columns, &mut mask)
}

/// What a fold has with a batch more of so many rows.
fn with_batch(
    alloc: Global,
    scan: &Scan,
    state: State,
    given: u64,
    columns: &[Column],
    rows: usize,
) -> Result<State, NoMemory>
    requires bounds { ScanInBounds scan.now }
    requires width { length columns.now ≡ length scan.now.columns }
    requires rows { All (λ column. length column ≡ rows) columns.now }
    requires few { given + rows < 2 ^ 63 }
    requires bound { SumOfFew given (sum_in state) }
    ensures state { IfOk result (λ new. new ≡ with_rows scan.now.fold state (passing scan.now.tests (rows_of rows columns.now))) }
    ensures bound { IfOk result (λ new. SumOfFew (given + rows) (sum_in new)) }
{
    if scan.tests.as_slice().is_empty() {
        return with_whole(alloc, &scan.fold, state, given, columns, rows);
    }
    with_passing(alloc, scan, state, given, columns, rows)
}

impl Fold {
    /// The fold of no rows yet of a scan of a plan, by the scan's number.
    ///
    /// Refuses only for want of memory.
    pub fn new(alloc: Global, plan: &Plan, fragment: u32) -> Result<Fold, NoMemory>
        requires { IsSome (scan_of plan.now fragment) }
        ensures { IfOk result (λ fold. scan_of plan.now fragment ≡ Some fold.scan × fold ≡ begun fold.scan) }
    {
        let state = nothing_of(alloc, &scan_at(plan, fragment).fold);
        let plan = plan.again()?;
        Ok(Fold {
            plan,
            fragment,
            rows: 0,
            state,
        })
    }

    /// The scan, lent.
    pub fn scan(&self) -> &Scan
        ensures { result.now ≡ self.now.scan }
    {
        scan_at(&self.plan, self.fragment)
    }

    /// How many rows it was given; the greatest number of 64 bits where they are more.
    pub fn rows(&self) -> u64
        ensures { result ≡ self.now.rows }
    {
        self.rows
    }

    /// Folds the rows of a batch: one column for each of the scan's `columns`, in that order, all of one length.
    ///
    /// It takes fewer than 2^63 rows over all its calls. A null meets no comparison, nor does a value of another kind than the literal.
    /// `NoMemory` comes only where memory was refused, and gives the fold up.
    pub fn fold_batch(&mut self, alloc: Global, columns: &[Column]) -> Result<(), NoMemory>
        requires width { length columns.now ≡ length self.old.scan.columns }
        requires rows { All (λ column. length column ≡ rows_in columns.now) columns.now }
        requires few { self.old.rows + rows_in columns.now < 2 ^ 63 }
        ensures { OnOk result (self.new ≡ folded self.old (rows_of (rows_in columns.now) columns.now)) }
    {
        let rows = batch_rows(columns);
        let given = self.rows;
        let state = mem::replace(&mut self.state, State::Count(0));
        let scan = scan_at(&self.plan, self.fragment);
        let state = with_batch(alloc, scan, state, given, columns, rows)?;
        self.state = state;
        self.rows = given + rows as u64;
        Ok(())
    }

    /// Counts so many rows, for a scan that counts without a test.
    pub fn fold_count(&mut self, rows: u64)
        requires count { self.old.scan.fold ≡ kind.Count }
        requires all { self.old.scan.tests ≡ [] }
        ensures { self.new ≡ folded self.old (replicate rows []) }
    {
        let given = self.rows;
        let state = mem::replace(&mut self.state, State::Count(0));
        self.state = count_with(state, rows);
        self.rows = given.saturating_add(rows);
    }

    /// The answer, or that a total isn't in the 64 bits of `i64`: the whole one alone counts. It takes no memory.
    pub fn finish(self) -> Result<Answer, Overflow>
        ensures { result ≡ finished self.state }
    {
        let Fold {
            plan: _,
            fragment: _,
            rows: _,
            state,
        } = self;
        match state {
            State::Rows(table) => Ok(Answer::Rows(table)),
            State::Count(count) => count_answer(count),
            State::Sum(total) => sum_answer(total),
            State::Group(counts) => {
                if counts.all_fit() {
                    Ok(Answer::Group(Groups::new(counts)))
                } else {
                    Err(Overflow)
                }
            }
        }
    }
}

/// The answer of a count.
fn count_answer(count: u64) -> Result<Answer, Overflow>
    ensures { result ≡ finished (state.Count count) }
{
    match i64::try_from(count) {
        Ok(count) => Ok(Answer::Count(count)),
        Err(_) => Err(Overflow),
    }
}

/// The answer of a total.
pub(crate) fn sum_answer(total: Total) -> Result<Answer, Overflow>
    ensures { result ≡ finished (state.Sum total) }
{
    if !total.some {
        return Ok(Answer::Sum(None));
    }
    match i64::try_from(total.sum) {
        Ok(sum) => Ok(Answer::Sum(Some(sum))),
        Err(_) => Err(Overflow),
    }
}
