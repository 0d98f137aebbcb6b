//! Whether a column serves a scan, by its kind.
ghost use Rattle.std.specs.Prelude.{◌≡◌};
ghost use Rattle.std.specs.List.{list_all};
ghost use Rattle.fragment_meaning.specs.ScanColumns.{literal_fits as literal_meets, check_fits as check_meets};
ghost use Rattle.fragment_meaning.specs.ScanColumns.{test_fits as test_meets, fold_fits as fold_meets, serves as serves_scan};
ghost use Rattle.scan_columns.specs.Kinds.{kind_number};

use crate::kind::{ReadKind, read_kind};
use fragment_plan::{Check, FoldKind, Scan, Test};
use orc_values::Value;

/// Whether a literal is of the kind.
fn literal_fits(kind: ReadKind, literal: &Value) -> bool
    ensures { result ≡ literal_meets (kind_number kind) literal.now }
{
    match literal {
        Value::Null => false,
        Value::Bool(_) => matches!(kind, ReadKind::Boolean),
        Value::Int(_) => kind.is_integer(),
        Value::Text(_) => matches!(kind, ReadKind::String),
    }
}

/// Whether that can be asked of a column of the kind.
fn check_fits(kind: ReadKind, check: &Check) -> bool
    ensures { result ≡ check_meets (kind_number kind) check.now }
{
    match check {
        Check::Compare { op: _, literal } => literal_fits(kind, literal),
        Check::IsNull => true,
        Check::IsNotNull => true,
    }
}

/// Whether a test suits the column of that index, which is of the kind.
fn test_fits(index: usize, kind: ReadKind, test: &Test) -> bool
    ensures { result ≡ test_meets index (kind_number kind) test.now }
{
    if test.column as usize == index {
        check_fits(kind, &test.check)
    } else {
        true
    }
}

/// Whether all tests do.
fn all_fit(index: usize, kind: ReadKind, tests: &[Test]) -> bool
    ensures { result ≡ list_all (test_meets index (kind_number kind)) tests.now }
{
    tests.iter().all(|test| test_fits(index, kind, test))
}

/// Whether a fold suits the column of that index, which is of the kind: only numbers are added.
fn fold_fits(index: usize, kind: ReadKind, fold: &FoldKind) -> bool
    ensures { result ≡ fold_meets index (kind_number kind) fold.now }
{
    match fold {
        FoldKind::Sum(summed) => {
            if *summed as usize == index {
                kind.is_integer()
            } else {
                true
            }
        }
        FoldKind::Rows(_) => true,
        FoldKind::Count => true,
        FoldKind::Group(_) => true,
    }
}

/// Whether a column whose kind has that number serves a scan at that index among its names.
#[tactic(auto, using(crate::proofs::Numbered::is_kind, crate::proofs::Numbered::is_read, crate::proofs::Numbered::isnt_read))]
pub(crate) fn serves(scan: &Scan, index: usize, kind: u64) -> bool
    ensures { result ≡ serves_scan scan.now index kind }
{
    match read_kind(kind) {
        Some(kind) => {
            fold_fits(index, kind, &scan.fold) && all_fit(index, kind, scan.tests.as_slice())
        }
        None => false,
    }
}
