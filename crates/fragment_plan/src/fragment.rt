//! What a plan is made of.

use crate::names::Names;
use crate::numbers::Numbers;
use crate::test::Tests;
use outside::Name;

/// A fragment: one line of a plan.
#[derive(Drop)]
pub struct Fragment {
    /// Its name, with which the lines of its result begin.
    pub name: Name,
    /// What is done.
    pub work: Work,
    /// The fragments behind which it is to be done, by number, in the order of the line.
    pub after: Numbers,
}

/// What a fragment does.
#[derive(Drop)]
pub enum Work {
    /// It reads a file.
    Scan(Scan),
    /// It joins the results of these fragments, by number, in the order of the line.
    Merge(Numbers),
}

/// A scan of one file.
#[derive(Drop)]
pub struct Scan {
    /// The file that is read.
    pub file: Name,
    /// The distinct names of the line's columns, at most 16, in the order in which the line first names them.
    pub columns: Names,
    /// What is made of the rows that pass.
    pub fold: FoldKind,
    /// What a row must meet to pass, at most 16 tests.
    pub tests: Tests,
}

/// What a scan makes of the rows that pass. A column is its place in the scan's `columns`, counted from 0.
#[derive(Drop)]
pub enum FoldKind {
    /// It keeps these columns of each row, in the order of the line, repeats included.
    Rows(Numbers),
    /// It counts the rows.
    Count,
    /// It adds the values of a column.
    Sum(u32),
    /// It counts the rows of each value of a column.
    Group(u32),
}
