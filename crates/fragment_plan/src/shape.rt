//! The form of a fragment's result.

ghost use Rattle.std.specs.Prelude.{◌≡◌, ℕ, length};
ghost use Rattle.std.specs.List.{list_all};
ghost use Rattle.fragment_plan.specs.Shapes.{is_like, shape_of_fold, shape_at, shape_of, is_whole};

use crate::fragment::{FoldKind, Work};

/// The form of a fragment's result. A merge has that of its first source.
#[derive(Clone, Copy, PartialEq, Eq)]
pub enum Shape {
    /// Rows of so many values.
    Rows(usize),
    /// A number of rows.
    Count,
    /// A total, or null.
    Sum,
    /// Keys, each with a number of rows.
    Group,
}

/// Whether two results are of one form: rows of as many values are.
pub(crate) fn are_alike(one: Shape, two: Shape) -> bool
    ensures { result ≡ is_like one two }
{
    match (one, two) {
        (Shape::Rows(one), Shape::Rows(two)) => one == two,
        (Shape::Count, Shape::Count) => true,
        (Shape::Sum, Shape::Sum) => true,
        (Shape::Group, Shape::Group) => true,
        _ => false,
    }
}

/// The form of what a scan makes.
fn fold_shape(fold: &FoldKind) -> Shape
    ensures { result ≡ shape_of_fold fold.now }
{
    match fold {
        FoldKind::Rows(columns) => Shape::Rows(columns.as_slice().len()),
        FoldKind::Count => Shape::Count,
        FoldKind::Sum(_) => Shape::Sum,
        FoldKind::Group(_) => Shape::Group,
    }
}

/// The shape of an earlier fragment.
fn earlier_shape(shapes: &[Shape], number: u32) -> Shape
    ensures { result ≡ shape_at shapes.now number }
{
    match shapes.get(number as usize) {
        Some(shape) => *shape,
        None => Shape::Count,
    }
}

/// The shape of a fragment's work, behind fragments of these shapes.
pub(crate) fn work_shape(shapes: &[Shape], work: &Work) -> Shape
    ensures { result ≡ shape_of shapes.now work.now }
{
    match work {
        Work::Scan(scan) => fold_shape(&scan.fold),
        Work::Merge(sources) => match sources.as_slice().split_first() {
            Some((first, _)) => earlier_shape(shapes, *first),
            None => Shape::Count,
        },
    }
}

/// Whether the sources of a merge are all of one shape.
pub(crate) fn is_of_one_shape(shapes: &[Shape], work: &Work) -> bool
    ensures { result ≡ is_whole shapes.now work.now }
{
    match work {
        Work::Scan(_) => true,
        Work::Merge(sources) => {
            let first = work_shape(shapes, work);
            are_all_like(shapes, first, sources.as_slice())
        }
    }
}

/// Whether all these fragments are of that shape.
fn are_all_like(shapes: &[Shape], first: Shape, sources: &[u32]) -> bool
    ensures { result ≡ list_all (λ n. is_like first (shape_at shapes.now n)) sources.now }
{
    sources
        .iter()
        .all(|number| are_alike(first, earlier_shape(shapes, *number)))
}
