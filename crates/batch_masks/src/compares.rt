//! Comparisons of numbers, each known when the code is built, so that a loop over numbers has one of them and no choice.
ghost use Rattle.std.specs.Prelude.{◌≡◌, ℤ, Bool};

/// A comparison of a number with a literal.
pub(crate) trait Compare {
    // What it answers.
    ghost compares: { ℤ → ℤ → Bool };

    /// Whether the number compares so.
    fn compares(number: i64, literal: i64) -> bool
        ensures { result ≡ compares number literal };
}

/// `=`
pub(crate) struct IsEqual;

/// `!=`
pub(crate) struct IsNotEqual;

/// `<`
pub(crate) struct IsLess;

/// `<=`
pub(crate) struct IsLessOrEqual;

/// `>`
pub(crate) struct IsGreater;

/// `>=`
pub(crate) struct IsGreaterOrEqual;

impl Compare for IsEqual {
    ghost use Rattle.std.specs.Ordering.{int_cmp};
    ghost use Rattle.batch_masks.specs.Checks.{satisfies};
    ghost use Rattle.fragment_plan.specs.declared.test.Op.TheVariants as op;

    ghost compares = { λ number literal. satisfies op.Equal (int_cmp number literal) };

    fn compares(number: i64, literal: i64) -> bool {
        number == literal
    }
}

impl Compare for IsNotEqual {
    ghost use Rattle.std.specs.Ordering.{int_cmp};
    ghost use Rattle.batch_masks.specs.Checks.{satisfies};
    ghost use Rattle.fragment_plan.specs.declared.test.Op.TheVariants as op;

    ghost compares = { λ number literal. satisfies op.NotEqual (int_cmp number literal) };

    fn compares(number: i64, literal: i64) -> bool {
        number != literal
    }
}

impl Compare for IsLess {
    ghost use Rattle.std.specs.Ordering.{int_cmp};
    ghost use Rattle.batch_masks.specs.Checks.{satisfies};
    ghost use Rattle.fragment_plan.specs.declared.test.Op.TheVariants as op;

    ghost compares = { λ number literal. satisfies op.Less (int_cmp number literal) };

    fn compares(number: i64, literal: i64) -> bool {
        number < literal
    }
}

impl Compare for IsLessOrEqual {
    ghost use Rattle.std.specs.Ordering.{int_cmp};
    ghost use Rattle.batch_masks.specs.Checks.{satisfies};
    ghost use Rattle.fragment_plan.specs.declared.test.Op.TheVariants as op;

    ghost compares = { λ number literal. satisfies op.LessOrEqual (int_cmp number literal) };

    fn compares(number: i64, literal: i64) -> bool {
        number <= literal
    }
}

impl Compare for IsGreater {
    ghost use Rattle.std.specs.Ordering.{int_cmp};
    ghost use Rattle.batch_masks.specs.Checks.{satisfies};
    ghost use Rattle.fragment_plan.specs.declared.test.Op.TheVariants as op;

    ghost compares = { λ number literal. satisfies op.Greater (int_cmp number literal) };

    fn compares(number: i64, literal: i64) -> bool {
        number > literal
    }
}

impl Compare for IsGreaterOrEqual {
    ghost use Rattle.std.specs.Ordering.{int_cmp};
    ghost use Rattle.batch_masks.specs.Checks.{satisfies};
    ghost use Rattle.fragment_plan.specs.declared.test.Op.TheVariants as op;

    ghost compares = { λ number literal. satisfies op.GreaterOrEqual (int_cmp number literal) };

    fn compares(number: i64, literal: i64) -> bool {
        number >= literal
    }
}
