//! Room for the runs of a column's streams.
ghost use Rattle.std.specs.Prelude.{◌≡◌, length, IfOk};

use orc_integers::RunRoom;
use outside::NoMemory;
use std::alloc::Global;

/// Room for a run of each stream of a column that may have runs of integers: LENGTH and DATA.
#[derive(Drop)]
pub struct ColumnRooms {
    /// For LENGTH.
    pub lengths: RunRoom,
    /// For DATA.
    pub body: RunRoom,
}

impl ColumnRooms {
    /// Room for both. Refuses only for want of memory.
    pub fn new(alloc: Global) -> Result<ColumnRooms, NoMemory>
        ensures lengths { IfOk result (λ rooms. length rooms.lengths ≡ 512) }
        ensures body { IfOk result (λ rooms. length rooms.body ≡ 512) }
    {
        let lengths = RunRoom::new(alloc)?;
        let body = RunRoom::new(alloc)?;
        Ok(ColumnRooms { lengths, body })
    }
}
