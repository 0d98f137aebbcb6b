//! A range is fetched: from the cache, or past it.

ghost use Rattle.std.specs.Prelude.{◌≡◌, ◌+◌, ◌*◌, ◌≤◌, ◌⊎◌, length, IfOk, OnErr};
ghost use Rattle.buffer_word.specs.KeyWord.{IsKey};
ghost use Rattle.outside.specs.Cause.{HasCause};
ghost use Rattle.outside.specs.Files.{IsFile, range_of};
ghost use Rattle.buffer_pool.specs.Pools.{IsContentOf, IsSameSeat, IsSeatOf, buffer_key, sizes_of, view};
ghost use Rattle.cache_lookup.specs.Before.{HasNoPinOf};
ghost use Rattle.range_cache.specs.Caches.{pool_of};
ghost use Rattle.range_cache.specs.Fetches.{FailsToFetch, Fetches, IsOfFile, Reads};
ghost use Rattle.range_cache.specs.Ranges.{IsHit, IsRangedFor};

use crate::{Cache, How, Ranged};
use buddy_arena::order_for;
use buffer_pool::{Key, PoolSeat};
use cache_lookup::{Found, first_header, look_up};
use cache_placement::{Placed, Why, place};
use outside::{Failed, FileRef, Store, World};

/// Fetches a range of a file through the cache, or past it.
///
/// The key's set is looked up. Where a way has the key and can be pinned, that is a `Hit`, and the store isn't read. Else the range is
/// read from the store into `scratch`, once. Where no way has the key, it is placed in the lowest way that was seen released, in the first
/// block that the arenas have for it, which is `Filled`. Else it isn't cached: a `Bypass` names why.
///
/// The key is a range of `file`, of at most `64 * min_block` bytes; `scratch` has its length; the seat has no pin of the key. After
/// `Filled` and every bypass `scratch` holds the range's bytes.
///
/// `Failed` comes only where the store's count of faults rose, and then nothing has changed: a count that was added was taken back.
/// No call takes memory or waits.
pub fn fetch<W: World, S: Store<W>>(
    cache: &Cache<W>,
    seat: &mut PoolSeat<W>,
    store: &mut S,
    key: Key,
    file: FileRef,
    scratch: &mut [u8],
) -> Result<Ranged, Failed>
    requires seat { IsSeatOf (pool_of cache.now) seat.old }
    requires key { IsKey key }
    requires file { IsOfFile key file }
    requires is_file { IsFile W.files file }
    requires fits { key.len ≤ 64 * (sizes_of (pool_of cache.now)).min_block }
    requires no_pin { HasNoPinOf (buffer_key key) (view seat.old) }
    requires scratch { length scratch.old ≡ key.len }
    ensures seat { IsSameSeat (pool_of cache.now) seat.old seat.new }
    ensures ranged { IfOk result (λ r. IsRangedFor (pool_of cache.now) seat.new key r) }
    ensures fetched { IfOk result (λ r. Fetches W.files (pool_of cache.now) seat.old seat.new key r) }
    ensures failed { OnErr result (FailsToFetch W.files (pool_of cache.now) seat.old seat.new key) }
    ensures bytes { IfOk result (λ r. IsHit r.how ⊎ IsContentOf W.files (buffer_key key) scratch.new) }
    ensures reads { IfOk result (λ r. Reads (S.reads store.old) (S.reads store.new) (range_of file key.at key.len) r.how) }
    ensures unread { OnErr result (S.reads store.new ≡ S.reads store.old) }
    ensures cause { HasCause (S.fault_count store.old) (S.fault_count store.new) result }
{
    let geometry = cache.pool.geometry();
    let first = first_header(geometry, key);
    let mut states = [0; 8];
    match look_up(&cache.pool, seat, key, first, &mut states) {
        Found::Hit(pin) => Ok(Ranged::pinned(How::Hit, pin, 0)),
        Found::Busy(word) => {
            store.read_at(file, key.at, scratch)?;
            Ok(Ranged::bypassed(Why::Busy { word }, key, 0))
        }
        Found::Missing => {
            store.read_at(file, key.at, scratch)?;
            let order = order_for(key.len, geometry.min_block);
            match place(
                &cache.pool,
                seat,
                key,
                order,
                first,
                states,
                0,
                geometry.arenas,
                scratch,
            ) {
                Placed::Filled(pin) => Ok(Ranged::pinned(How::Filled, pin, 0)),
                Placed::Bypass(why) => Ok(Ranged::bypassed(why, key, 0)),
            }
        }
    }
}
