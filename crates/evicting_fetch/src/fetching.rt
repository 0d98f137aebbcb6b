//! A range is fetched: from the cache, or past it.

ghost use Rattle.std.specs.Prelude.{◌≡◌, ◌+◌, ◌*◌, ◌≤◌, ◌⊎◌, length, IfOk, OnErr};
ghost use Rattle.buffer_word.specs.KeyWord.{IsKey};
ghost use Rattle.outside.specs.Cause.{HasCause};
ghost use Rattle.outside.specs.Files.{IsFile, range_of};
ghost use Rattle.buffer_pool.specs.Pools.{IsContentOf, IsSameSeat, IsSeatOf, buffer_key, sizes_of, view};
ghost use Rattle.cache_lookup.specs.Before.{HasNoPinOf};
ghost use Rattle.range_cache.specs.Caches.{pool_of};
ghost use Rattle.range_cache.specs.Fetches.{IsOfFile, Reads};
ghost use Rattle.range_cache.specs.Ranges.{IsHit};
ghost use Rattle.evicting_fetch.specs.Evictors.{IsEvictorOf};
ghost use Rattle.evicting_fetch.specs.Fetches.{FailsToFetch, Fetches, IsGot};
ghost use Rattle.evicting_fetch.specs.Victims.{TakesVictims};

use crate::Evictor;
use buddy_arena::order_for;
use buffer_pool::{Key, Pool, PoolSeat, tick, touch};
use cache_lookup::{Found, first_header, look_up};
use cache_placement::{Placed, Why};
use cache_room::{Room, Wanted};
use outside::{Failed, FileRef, Store, World};
use range_cache::{Cache, How, Ranged};

/// The same over the cache's pool.
fn fetch_from<W: World, S: Store<W>>(
    pool: &Pool<W>,
    seat: &mut PoolSeat<W>,
    evictor: &mut Evictor,
    store: &mut S,
    key: Key,
    file: FileRef,
    scratch: &mut [u8],
) -> Result<Ranged, Failed>
    requires seat { IsSeatOf pool.now seat.old }
    requires evictor { IsEvictorOf pool.now evictor.old }
    requires key { IsKey key }
    requires file { IsOfFile key file }
    requires is_file { IsFile W.files file }
    requires fits { key.len ≤ 64 * (sizes_of pool.now).min_block }
    requires no_pin { HasNoPinOf (buffer_key key) (view seat.old) }
    requires scratch { length scratch.old ≡ key.len }
    ensures seat { IsSameSeat pool.now seat.old seat.new }
    ensures evictor { IsEvictorOf pool.now evictor.new }
    ensures got { IfOk result (λ r. IsGot pool.now seat.new key r) }
    ensures fetched { IfOk result (λ r. Fetches W.files pool.now seat.old seat.new key r) }
    ensures victims { IfOk result (λ r. TakesVictims W.files pool.now seat.old seat.new key evictor.old evictor.new r.how) }
    ensures failed { OnErr result (FailsToFetch W.files pool.now seat.old seat.new key) }
    ensures unchanged { OnErr result (evictor.new ≡ evictor.old) }
    ensures hit { IfOk result (λ r. IsHit r.how → evictor.new ≡ evictor.old) }
    ensures bytes { IfOk result (λ r. IsHit r.how ⊎ IsContentOf W.files (buffer_key key) scratch.new) }
    ensures reads { IfOk result (λ r. Reads (S.reads store.old) (S.reads store.new) (range_of file key.at key.len) r.how) }
    ensures unread { OnErr result (S.reads store.new ≡ S.reads store.old) }
    ensures cause { HasCause (S.fault_count store.old) (S.fault_count store.new) result }
{
    let now = tick(pool, seat);
    let geometry = pool.geometry();
    let first = first_header(geometry, key);
    let mut states = [0; 8];
    match look_up(pool, seat, key, first, &mut states) {
        Found::Hit(pin) => {
            touch(pool, seat, pin.header(), now);
            Ok(Ranged::pinned(How::Hit, pin, 0))
        }
        Found::Busy(word) => {
            store.read_at(file, key.at, scratch)?;
            Ok(Ranged::bypassed(Why::Busy { word }, key, 0))
        }
        Found::Missing => {
            store.read_at(file, key.at, scratch)?;
            let order = order_for(key.len, geometry.min_block);
            let wanted = Wanted {
                key,
                order,
                first,
                states,
            };
            let Room { placed, evicted } = evictor.place(pool, seat, wanted, scratch);
            match placed {
                Placed::Filled(pin) => {
                    touch(pool, seat, pin.header(), now);
                    Ok(Ranged::pinned(How::Filled, pin, evicted))
                }
                Placed::Bypass(why) => Ok(Ranged::bypassed(why, key, evicted)),
            }
        }
    }
}

/// Fetches a range of a file through the cache, or past it, and evicts what has to go for it.
///
/// It takes a tick of the clock. The key's set is looked up: where a way has the key and can be pinned, that is a `Hit`, and the store
/// isn't read. Else the range is read from the store into `scratch`, once. Where no way has the key, it is placed in a header of its set
/// and a block of an arena, which is `Filled`; where there is none, buffers are evicted in the policy's order. What is pinned then is
/// touched at the tick. Else the range isn't cached: a `Bypass` names why. What was evicted stays so; with a `Hit` or `Busy` nothing was.
///
/// `SetFull` comes only where each way of the set was tried in this call, `NoRoom` only where each header was, `Raced` only where an
/// exchange came back with a word that none of this call's own steps had left, and `Busy` where a way has the key and can't be pinned.
///
/// The key is a range of `file`, of at most `64 * min_block` bytes; `scratch` has its length; the seat has no pin of the key; the evictor
/// is one of this cache. After `Filled` and every bypass `scratch` holds the range's bytes.
///
/// `Failed` comes only where the store's count of faults rose, and then nothing but the clock has changed. No call takes memory or waits.
pub fn fetch<W: World, S: Store<W>>(
    cache: &Cache<W>,
    seat: &mut PoolSeat<W>,
    evictor: &mut Evictor,
    store: &mut S,
    key: Key,
    file: FileRef,
    scratch: &mut [u8],
) -> Result<Ranged, Failed>
    requires seat { IsSeatOf (pool_of cache.now) seat.old }
    requires evictor { IsEvictorOf (pool_of cache.now) evictor.old }
    requires key { IsKey key }
    requires file { IsOfFile key file }
    requires is_file { IsFile W.files file }
    requires fits { key.len ≤ 64 * (sizes_of (pool_of cache.now)).min_block }
    requires no_pin { HasNoPinOf (buffer_key key) (view seat.old) }
    requires scratch { length scratch.old ≡ key.len }
    ensures seat { IsSameSeat (pool_of cache.now) seat.old seat.new }
    ensures evictor { IsEvictorOf (pool_of cache.now) evictor.new }
    ensures got { IfOk result (λ r. IsGot (pool_of cache.now) seat.new key r) }
    ensures fetched { IfOk result (λ r. Fetches W.files (pool_of cache.now) seat.old seat.new key r) }
    ensures victims { IfOk result (λ r. TakesVictims W.files (pool_of cache.now) seat.old seat.new key evictor.old evictor.new r.how) }
    ensures failed { OnErr result (FailsToFetch W.files (pool_of cache.now) seat.old seat.new key) }
    ensures unchanged { OnErr result (evictor.new ≡ evictor.old) }
    ensures hit { IfOk result (λ r. IsHit r.how → evictor.new ≡ evictor.old) }
    ensures bytes { IfOk result (λ r. IsHit r.how ⊎ IsContentOf W.files (buffer_key key) scratch.new) }
    ensures reads { IfOk result (λ r. Reads (S.reads store.old) (S.reads store.new) (range_of file key.at key.len) r.how) }
    ensures unread { OnErr result (S.reads store.new ≡ S.reads store.old) }
    ensures cause { HasCause (S.fault_count store.old) (S.fault_count store.new) result }
{
    fetch_from(cache.pool(), seat, evictor, store, key, file, scratch)
}
