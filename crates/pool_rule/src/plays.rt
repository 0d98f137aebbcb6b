//! What a step tells its seat: the call that makes the step picks it, since the table doesn't see which kind it is.

ghost use Rattle.std.specs.Prelude.{ℕ};
ghost use Rattle.pool_rule.specs.declared.view.View.{View};

use crate::View;
use atomic_table::{Join, Play, Split};
use std::marker::{Brand, PhantomData};

/// What a step tells: of the word that it found, and of the seat's views before and after.
pub(crate) trait Telling {
    ghost told: { ℕ → View → View → Type 0 };
}

impl Telling for Brand {
    ghost told = { λ found v w. Unit {0} };
}

pub(crate) struct Tells<C> {
    telling: PhantomData<C>,
}

impl<S, C: Telling> Play<S, View> for Tells<C> {
    ghost use Rattle.pool_rule.specs.Plays.{plays};

    ghost then = { plays C.told };
}

/// How many numbers a seat gives away.
pub(crate) trait Count {
    ghost count: { ℕ };
}

impl Count for Brand {
    ghost count = { 1 };
}

pub(crate) struct Parts<C> {
    count: PhantomData<C>,
}

impl<C: Count> Split<View> for Parts<C> {
    ghost use Rattle.pool_rule.specs.Seats.{parted, part_of};

    ghost left = { λ v. parted C.count v };

    ghost right = { λ v. part_of C.count v };
}

pub(crate) struct Joins;

impl Join<View> for Joins {
    ghost use Rattle.pool_rule.specs.Seats.{joined, spent};

    ghost both = { λ v w. joined v w };

    ghost spent = { spent };
}
