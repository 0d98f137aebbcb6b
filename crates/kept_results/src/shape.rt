//! Which answers have the shape of a fragment.

ghost use Rattle.std.specs.Prelude.{◌≡◌, ◌<◌, length};
ghost use Rattle.fragment_plan.specs.Bounds.{AllInBounds};
ghost use Rattle.fragment_plan.specs.Shapes.{shape_of_fold, shape_at, shapes_of};
ghost use Rattle.kept_results.specs.Kept.{is_of_shape};

use fragment_outcome::Answer;
use fragment_plan::{FoldKind, Fragment, Plan, Shape, Work};

/// Whether an answer has the shape of a fragment, which for a merge is that of its first source.
pub fn has_shape(plan: &Plan, fragment: u32, answer: &Answer) -> bool
    requires { fragment < length plan.now }
    ensures { result ≡ is_of_shape (shape_at (shapes_of plan.now) fragment) answer.now }
{
    let shape = shape_of(plan.fragments(), fragment);
    is_of(shape, answer)
}

/// Whether an answer is rows, a count, a sum or groups, as a shape says.
fn is_of(shape: Shape, answer: &Answer) -> bool
    ensures { result ≡ is_of_shape shape answer.now }
{
    match answer {
        Answer::Rows(_) => matches!(shape, Shape::Rows(_)),
        Answer::Count(_) => matches!(shape, Shape::Count),
        Answer::Sum(_) => matches!(shape, Shape::Sum),
        Answer::Group(_) => matches!(shape, Shape::Group),
    }
}

/// The shape of a fragment: that of what its scan makes, or of its first source.
fn shape_of(fragments: &[Fragment], fragment: u32) -> Shape
    requires below { fragment < length fragments.now }
    requires bounds { AllInBounds fragments.now }
    ensures { result ≡ shape_at (shapes_of fragments.now) fragment }
{
    match &fragments[fragment as usize].work {
        Work::Scan(scan) => fold_shape(&scan.fold),
        Work::Merge(sources) => match sources.as_slice() {
            [first, ..] => shape_of(fragments, *first),
            [] => Shape::Count,
        },
    }
}

/// The shape of what a scan makes.
fn fold_shape(fold: &FoldKind) -> Shape
    ensures { result ≡ shape_of_fold fold.now }
{
    match fold {
        FoldKind::Rows(columns) => Shape::Rows(columns.as_slice().len()),
        FoldKind::Count => Shape::Count,
        FoldKind::Sum(_) => Shape::Sum,
        FoldKind::Group(_) => Shape::Group,
    }
}
