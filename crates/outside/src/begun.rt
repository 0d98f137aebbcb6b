//! A varint that has begun.
ghost use Rattle.std.specs.Prelude.{◌≡◌, ◌≤◌};
ghost use Rattle.outside.specs.Pieces.{Pushed};

use crate::RunFault;

/// A number of which some bytes have been read, and not yet the last.
#[derive(Clone, Copy)]
pub struct Begun {
    pub groups: u64,
    pub count: u32,
    ghost short: { count ≤ 9 },
}

impl Begun {
    /// A number of which no byte has been read.
    pub fn new() -> Begun
        ensures groups { result.groups ≡ 0 }
        ensures count { result.count ≡ 0 }
    {
        Begun {
            groups: 0,
            count: 0,
        }
    }

    /// Reads one more byte, and answers the number where it was the last.
    pub fn push(&mut self, byte: u8) -> Result<Option<u64>, RunFault>
        ensures { Pushed self.old.groups self.old.count byte self.new.groups self.new.count result }
    {
        let groups = self
            .groups
            .wrapping_add(u64::from(byte % 128) << (7 * self.count));
        if byte < 128 {
            *self = Begun::new();
            return Ok(Some(groups));
        }
        if self.count == 9 {
            return Err(RunFault::LongVarint);
        }
        *self = Begun {
            groups,
            count: self.count + 1,
        };
        Ok(None)
    }
}
