//! The words of a new pool, as they are laid out in its table.

ghost use Rattle.std.specs.Prelude.{◌≡◌, ◌++◌, replicate, IfOk, OnOk};
ghost use Rattle.pool_rule.specs.Layout.{IsGeometry};
ghost use Rattle.pool_rule.specs.Rule.{first_words, released_words};

use crate::Geometry;
use std::alloc::{AllocError, Global};

/// Puts so many zeros behind the words.
fn push_zeros(words: &mut Vec<u64>, count: usize) -> Result<(), AllocError>
    ensures { OnOk result (words.new.items ≡ words.old.items ++ replicate count 0) }
{
    for _ in 0..count {
        words.push(0)?;
    }
    Ok(())
}

/// Puts the words of so many released headers behind the words.
fn push_released(words: &mut Vec<u64>, count: usize) -> Result<(), AllocError>
    ensures { OnOk result (words.new.items ≡ words.old.items ++ released_words count) }
{
    for _ in 0..count {
        words.push(8)?;
        words.push(0)?;
        words.push(0)?;
        words.push(0)?;
    }
    Ok(())
}

/// The words of a new pool, in their order.
pub(crate) fn first_words(alloc: Global, geometry: Geometry) -> Result<Vec<u64>, AllocError>
    requires { IsGeometry geometry }
    ensures { IfOk result (λ w. w.items ≡ first_words geometry) }
{
    let arenas = geometry.arenas as usize;
    let headers = 8 * geometry.sets as usize;
    let cells = 64 * arenas * (geometry.min_block as usize / 8);
    let mut words = Vec::with_capacity(alloc, arenas + 4 * headers + 1 + cells)?;
    push_zeros(&mut words, arenas)?;
    push_released(&mut words, headers)?;
    push_zeros(&mut words, 1 + cells)?;
    Ok(words)
}
