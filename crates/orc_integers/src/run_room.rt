//! Room for the values of a run.
ghost use Rattle.std.specs.Prelude.{◌≡◌, length, IfOk};

use outside::NoMemory;
use std::alloc::{AllocError, Global};
use std::marker::Model;

/// The most values of a run.
pub const MOST: usize = 512;

/// Room for the values of one run, `MOST` in all. It is seen as the list of what stands there.
///
/// It is owned memory and not an array, since a decoder is answered by value, and each call on that way would clear the place for an
/// array of four kilobytes.
#[derive(Drop)]
pub struct RunRoom {
    pub(crate) values: Vec<i64>,
}

impl Model for RunRoom {
    ghost use Rattle.std.specs.Prelude.{◌≡◌, List, ℤ, length};

    ghost Value = { List ℤ };

    ghost view = { λ room. room.values.items };

    ghost invariant = { λ room. length room.values.items ≡ 512 };
}

impl RunRoom {
    /// Room for a run. Refuses only for want of memory.
    pub fn new(alloc: Global) -> Result<RunRoom, NoMemory>
        ensures { IfOk result (λ room. length room ≡ 512) }
    {
        let Ok(values) = cleared(alloc) else {
            return Err(NoMemory);
        };
        Ok(RunRoom { values })
    }
}

/// Memory for the values of one run.
///
/// It is cleared in four parts: the C library clears two kilobytes and more by a string instruction, which costs more
/// than short clears do.
fn cleared(alloc: Global) -> Result<Vec<i64>, AllocError>
    ensures { IfOk result (λ values. length values.items ≡ 512) }
{
    let mut values = Vec::with_capacity(alloc, MOST)?;
    values.resize(MOST / 4, 0)?;
    values.resize(MOST / 2, 0)?;
    values.resize(MOST / 4 * 3, 0)?;
    values.resize(MOST, 0)?;
    Ok(values)
}
