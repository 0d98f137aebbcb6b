//! What is wrong with a plan.

ghost use Rattle.std.specs.Prelude.{◌≡◌};
ghost use Rattle.plan_words.specs.declared.fault.Stop.TheVariants.{Fault, NoMemory};
ghost use Rattle.plan_words.specs.Faults.{words_of};

use std::alloc::{AllocError, AllocFailed};

/// Why a plan is refused.
///
/// The first bad line decides, and in it the first word: its form first, then unknown fragments, then counts.
#[derive(Clone, Copy, Debug, PartialEq, Eq)]
pub enum PlanKind {
    /// A word is missing, or stands where the grammar has another, or a quote isn't closed.
    BadWord,
    /// A name of a fragment, a file or a column breaks its rule, or a fragment's name stands on an earlier line.
    BadName,
    /// A list names a fragment of no earlier line.
    UnknownFragment,
    /// The sources of a merge aren't all counts, all sums, all groups, or all rows with as many columns.
    ShapeDiffers,
    /// The 1,001st fragment, the 65th name of a list, or the 17th distinct column or test of a fragment.
    TooMany,
    /// A literal of no form, one whose closing quote another byte than a blank follows, or a truth value that
    /// isn't compared by `=` or `!=`.
    BadLiteral,
    /// The plan has more than 1,048,576 bytes.
    TooLong,
}

impl PlanKind {
    /// The words that are printed of the fault.
    pub fn words(self) -> &'static str
        ensures { result.now ≡ words_of self }
    {
        match self {
            PlanKind::BadWord => "bad word",
            PlanKind::BadName => "bad name",
            PlanKind::UnknownFragment => "unknown fragment",
            PlanKind::ShapeDiffers => "shape differs",
            PlanKind::TooMany => "too many",
            PlanKind::BadLiteral => "bad literal",
            PlanKind::TooLong => "too long",
        }
    }
}

/// What ends the reading of a line before its end.
#[derive(Clone, Copy, Debug, PartialEq, Eq)]
pub enum Stop {
    /// The line is refused.
    Fault(PlanKind),
    /// Memory was asked for, and refused.
    NoMemory,
}

impl From<PlanKind> for Stop {
    ghost from_gives = { λ kind stop. stop ≡ Fault kind };

    fn from(kind: PlanKind) -> Stop {
        Stop::Fault(kind)
    }
}

impl From<AllocError> for Stop {
    ghost from_gives = { λ _ stop. stop ≡ NoMemory };

    fn from(_error: AllocError) -> Stop {
        Stop::NoMemory
    }
}

impl<T: Drop> From<AllocFailed<T>> for Stop {
    ghost from_gives = { λ _ stop. stop ≡ NoMemory };

    fn from(_error: AllocFailed<T>) -> Stop {
        Stop::NoMemory
    }
}
