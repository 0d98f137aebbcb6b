//! One line.

ghost use Rattle.std.specs.Prelude.{◌≡◌, ◌<◌, [], None, true, length, position, IfOk, OnOk};
ghost use Rattle.std.specs.Str.{bytes_eq};
ghost use Rattle.plan_words.specs.Names.{is_name};
ghost use Rattle.plan_words.specs.Reading.{file_name};
ghost use Rattle.plan_words.specs.Steps.{GivesOr};
ghost use Rattle.fragment_plan.specs.Fragments.{fold_by, scan_by, merge, work_by, work, named_fragment, fragment_of};

use crate::fragment::{FoldKind, Fragment, Scan, Work};
use crate::names::Names;
use crate::numbers::Numbers;
use crate::shape::{Shape, is_of_one_shape};
use crate::test::Tests;
use crate::test_reader::read_tests;
use outside::{Name, NoMemory};
use plan_names::{
    Columns, KnownNames, read_after, read_column, read_column_list, read_new_name, read_sources,
};
use plan_words::{PlanKind, Stop, name_of, read_end, read_file_name, read_keyword, read_word};
use std::alloc::Global;

/// What a scan makes of its rows, behind the word that names it, with the columns that are named then, and what
/// is left.
fn read_fold_by<'a>(
    alloc: Global,
    found: &[u8],
    left: &'a [u8],
) -> Result<(FoldKind, Columns, &'a [u8]), Stop>
    ensures { GivesOr (λ x. ((x.0, x.1), x.2.now)) result (fold_by found.now left.now) }
{
    if found == b"rows".as_slice() {
        let (places, columns, rest) = read_column_list(alloc, left)?;
        return Ok((FoldKind::Rows(Numbers::new(places)), columns, rest));
    }
    if found == b"count".as_slice() {
        return Ok((FoldKind::Count, Columns::new(alloc), left));
    }
    if found == b"sum".as_slice() {
        let (place, columns, rest) = read_column(alloc, Columns::new(alloc), left)?;
        return Ok((FoldKind::Sum(place), columns, rest));
    }
    if found == b"group".as_slice() {
        let (place, columns, rest) = read_column(alloc, Columns::new(alloc), left)?;
        return Ok((FoldKind::Group(place), columns, rest));
    }
    Err(Stop::Fault(PlanKind::BadWord))
}

/// The name of a file, copied, and what is left.
fn read_file(alloc: Global, left: &[u8]) -> Result<(Name, &[u8]), Stop>
    ensures { GivesOr (λ x. (x.0, x.1.now)) result (file_name left.now) }
{
    let (found, rest) = read_file_name(left)?;
    match name_of(alloc, found) {
        Ok(name) => Ok((name, rest)),
        Err(NoMemory) => Err(Stop::NoMemory),
    }
}

/// A scan, behind the word that names it, and what is left.
fn read_scan_by<'a>(alloc: Global, found: &[u8], left: &'a [u8]) -> Result<(Work, &'a [u8]), Stop>
    ensures { GivesOr (λ x. (x.0, x.1.now)) result (scan_by found.now left.now) }
{
    let (fold, columns, rest) = read_fold_by(alloc, found, left)?;
    let rest = read_keyword(b"from", rest)?;
    let (file, rest) = read_file(alloc, rest)?;
    let (tests, columns, rest) = read_tests(alloc, columns, rest)?;
    let scan = Scan {
        file,
        columns: Names::new(columns.into_vec()),
        fold,
        tests: Tests::new(tests),
    };
    Ok((Work::Scan(scan), rest))
}

/// What a fragment does, behind the word that names it, and what is left.
fn read_work_by<'a>(
    alloc: Global,
    earlier: &KnownNames<'_>,
    found: &[u8],
    left: &'a [u8],
) -> Result<(Work, &'a [u8]), Stop>
    ensures { GivesOr (λ x. (x.0, x.1.now)) result (work_by earlier.now found.now left.now) }
{
    if found == b"merge".as_slice() {
        let (sources, rest) = read_sources(alloc, earlier, left)?;
        return Ok((Work::Merge(Numbers::new(sources)), rest));
    }
    read_scan_by(alloc, found, left)
}

/// What a fragment does, and what is left.
#[tactic(auto, unfolding(crate::specs::Fragments::work))]
fn read_work<'a>(
    alloc: Global,
    earlier: &KnownNames<'_>,
    left: &'a [u8],
) -> Result<(Work, &'a [u8]), Stop>
    ensures { GivesOr (λ x. (x.0, x.1.now)) result (work earlier.now left.now) }
{
    let (found, rest) = read_word(left)?;
    read_work_by(alloc, earlier, found, rest)
}

/// The fragment of a line, behind its name, where earlier lines have these names and shapes.
fn read_named(
    alloc: Global,
    earlier: &KnownNames<'_>,
    shapes: &[Shape],
    found: &[u8],
    left: &[u8],
) -> Result<Fragment, Stop>
    requires { is_name found.now ≡ true }
    ensures read { GivesOr (λ x. x) result (named_fragment earlier.now shapes.now found.now left.now) }
    ensures name { IfOk result (λ x. x.name ≡ found.now) }
{
    let (work, rest) = read_work(alloc, earlier, left)?;
    let (after, rest) = read_after(alloc, earlier, rest)?;
    read_end(rest)?;
    if !is_of_one_shape(shapes, &work) {
        return Err(Stop::Fault(PlanKind::ShapeDiffers));
    }
    let Ok(name) = name_of(alloc, found) else {
        return Err(Stop::NoMemory);
    };
    let after = Numbers::new(after);
    Ok(Fragment { name, work, after })
}

/// The name and the fragment of a whole line, behind fragments of these names and shapes.
#[tactic(auto, unfolding(crate::specs::Fragments::fragment_of, crate::specs::Fragments::line))]
pub(crate) fn read_line<'a>(
    alloc: Global,
    earlier: &KnownNames<'_>,
    shapes: &[Shape],
    text: &'a [u8],
) -> Result<(&'a [u8], Fragment), Stop>
    ensures read { GivesOr (λ x. x.1) result (fragment_of earlier.now shapes.now text.now) }
    ensures name { IfOk result (λ x. x.1.name ≡ x.0.now) }
    ensures fresh { IfOk result (λ x. position (bytes_eq x.0.now) earlier.now ≡ None) }
    ensures room { OnOk result (length earlier.now < 1000) }
{
    let (found, rest) = read_new_name(earlier, text)?;
    let fragment = read_named(alloc, earlier, shapes, found, rest)?;
    Ok((found, fragment))
}
