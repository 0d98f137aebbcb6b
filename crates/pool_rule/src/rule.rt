use crate::{Setup, View};
use atomic_table::TableRule;
use outside::World;
use std::marker::PhantomData;

/// The rule of a pool's table: there is a lawful pool of this world for which words and views stand.
///
/// It says nothing of slots, so a table under it may have any.
pub struct PoolRule<W> {
    world: PhantomData<W>,
}

impl<S, W: World> TableRule<S, View, Setup> for PoolRule<W> {
    ghost use Rattle.pool_rule.specs.Rule.{IsKept, first_view};

    ghost holds = { λ setup. IsKept W.files setup };

    ghost first = { first_view };
}
