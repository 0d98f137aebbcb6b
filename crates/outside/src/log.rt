//! A list of what was done, told as long as there is room for it.
ghost use Rattle.std.specs.Prelude.{◌≡◌, [], Some, IfOk, option_copied};
ghost use Rattle.outside.specs.Log.{told_within};

use crate::NoMemory;
use std::alloc::Global;
use std::marker::Model;

/// A list with room for so many items. Past that room it takes no more, and tells nothing from then on.
///
/// Contracts see the items, or none once they aren't told any more, and the room.
#[derive(Drop)]
pub struct Log<T> {
    items: Vec<T>,
    room: usize,
    told: bool,
}

impl<T> Model for Log<T> {
    ghost use Rattle.std.specs.Prelude.{◌≤◌, Some, None, if◌then◌else◌, vec_capacity, vec_len};
    ghost use Rattle.outside.specs.Log.{LogOf};

    ghost Value = { LogOf T };

    ghost view = { λ l. record { items = (if l.told then Some l.items.items else None); room = l.room } };

    ghost invariant = { λ l. (vec_len l.items ≤ l.room) × (l.room ≤ vec_capacity l.items) };
}

impl<T: Copy> Log<T> {
    /// An empty log with that room, for which it takes the memory; `NoMemory` where that is refused.
    pub fn new(alloc: Global, room: usize) -> Result<Log<T>, NoMemory>
        ensures { IfOk result (λ log. log ≡ record { items = Some []; room = room }) }
    {
        match Vec::with_capacity(alloc, room) {
            Ok(items) => Ok(Log {
                items,
                room,
                told: true,
            }),
            Err(_) => Err(NoMemory),
        }
    }

    /// Adds items at the end, if they are told and there is room. It takes no memory.
    pub fn append(&mut self, more: &[T])
        ensures { self.new ≡ record self.old { items = told_within self.old.room self.old.items more.now } }
    {
        if more.len() > self.room - self.items.len() {
            self.told = false;
            return;
        }
        if self.items.extend_from_slice(more).is_err() {
            self.told = false;
        }
    }

    /// The items that it tells.
    pub fn items(&self) -> Option<&[T]>
        ensures { option_copied result ≡ self.now.items }
    {
        if self.told {
            Some(self.items.as_slice())
        } else {
            None
        }
    }
}
