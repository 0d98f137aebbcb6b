//! What a fetch got.

use crate::Cache;
use buffer_pool::{Key, Pin, PoolSeat, read, unpin};
use cache_placement::Why;
use outside::World;

/// How a range was got.
#[derive(Drop)]
pub enum How {
    /// It was in the cache. Nothing was read from the store.
    Hit,
    /// It was read, and is in the cache now.
    Filled,
    /// It was read, and isn't in the cache.
    Bypass(Why),
}

/// By what a range is held.
pub(crate) enum Grip {
    /// A pin of its buffer.
    Pin(Pin),
    /// Nothing: the bytes of this key are in the caller's scratch alone.
    Bypass(Key),
}

/// A range that was fetched. It must be spent by `done`, which lets its buffer go.
pub struct Ranged {
    /// How it was got.
    pub how: How,
    /// How many buffers were evicted for it.
    pub evicted: u32,
    /// How many buffers were moved for it. None is yet.
    pub moved: u32,
    pub(crate) held: Grip,
}

impl Ranged {
    ghost use Rattle.std.specs.Prelude.{◌≡◌, ◌+◌, ◌≤◌, length};
    ghost use Rattle.pool_rule.specs.declared.view.View.{View};
    ghost use Rattle.buffer_pool.specs.Pools.{AreBytesOf, IsSameSeat, IsSeatOf, view};
    ghost use Rattle.cache_lookup.specs.Before.{IsAsBefore};
    ghost use Rattle.range_cache.specs.declared.ranged.Grip.TheVariants as grip;
    ghost use Rattle.range_cache.specs.Caches.{pool_of};
    ghost use Rattle.range_cache.specs.Ranges.{IsDone, IsRanged, IsReadable, IsReading, Leaves, range_key, ranged_by};

    /// A range that is held by a pin, for which so many buffers were evicted. For those who fetch.
    pub fn pinned(how: How, pin: Pin, evicted: u32) -> Ranged
        ensures { result ≡ ranged_by how evicted (grip.Pin pin) }
    {
        Ranged {
            how,
            evicted,
            moved: 0,
            held: Grip::Pin(pin),
        }
    }

    /// A range that was read past the cache, for which so many buffers were evicted. For those who fetch.
    pub fn bypassed(why: Why, key: Key, evicted: u32) -> Ranged
        ensures { result ≡ ranged_by (How.Bypass why) evicted (grip.Bypass key) }
    {
        Ranged {
            how: How::Bypass(why),
            evicted,
            moved: 0,
            held: Grip::Bypass(key),
        }
    }

    /// Reads a part of the range, the bytes from byte `at` of it on: through its pin, each cell once, or for a bypass from
    /// `scratch`.
    ///
    /// The part lies in the range. For a bypass `scratch` has the range's length and, where the world tells its files, still holds its
    /// bytes; for a pin any will do. Where files are told the bytes are the file's.
    pub fn read<W: World>(
        &self,
        cache: &Cache<W>,
        seat: &mut PoolSeat<W>,
        scratch: &[u8],
        at: u32,
        into: &mut [u8],
    )
        requires seat { IsSeatOf (pool_of cache.now) seat.old }
        requires ranged { IsRanged (pool_of cache.now) seat.old self.now }
        requires scratch { IsReadable W.files self.now scratch.now }
        requires range { at + length into.old ≤ (range_key self.now).len }
        ensures seat { IsSameSeat (pool_of cache.now) seat.old seat.new }
        ensures ranged { IsRanged (pool_of cache.now) seat.new self.now }
        ensures len { length into.new ≡ length into.old }
        ensures content { AreBytesOf W.files (range_key self.now) at (length into.old) into.new }
        ensures same { IsAsBefore (view seat.old) (view seat.new) }
        ensures reading { IsReading W.files (pool_of cache.now) seat.old seat.new self.now at into.new }
    {
        match &self.held {
            Grip::Pin(pin) => read(&cache.pool, seat, pin, at, into),
            Grip::Bypass(_) => {
                let first = at as usize;
                into.copy_from_slice(&scratch[first..first + into.len()]);
            }
        }
    }

    /// Lets the range go. A pin is dropped, in one step; a bypass has nothing to drop. The seat then has what it had before the
    /// range was fetched.
    pub fn done<W: World>(self, cache: &Cache<W>, seat: &mut PoolSeat<W>)
        requires seat { IsSeatOf (pool_of cache.now) seat.old }
        requires ranged { IsRanged (pool_of cache.now) seat.old self }
        ensures seat { IsSameSeat (pool_of cache.now) seat.old seat.new }
        ensures back { (start : View) → Leaves start (view seat.old) self → IsAsBefore start (view seat.new) }
        ensures done { IsDone W.files (pool_of cache.now) seat.old seat.new self }
    {
        cache_lookup::laws::holds_are_let_go();
        let Ranged {
            how: _,
            evicted: _,
            moved: _,
            held,
        } = self;
        match held {
            Grip::Pin(pin) => unpin(&cache.pool, seat, pin),
            Grip::Bypass(_) => {}
        }
    }
}
