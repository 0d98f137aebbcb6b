//! A range is got for a slot.
ghost use Rattle.std.specs.Prelude.{◌≡◌, ◌≢◌, ◌*◌, ◌<◌, ◌≤◌, ℕ, [], ◌∷◌, length, IfOk, OnErr, OnOk, None, Some, slice_set, ◌⊎◌};
ghost use Rattle.buffer_word.specs.KeyWord.{IsKey};
ghost use Rattle.outside.specs.Cause.{HasCause};
ghost use Rattle.outside.specs.Files.{IsFile};
ghost use Rattle.buffer_pool.specs.Pools.{IsContentOf, IsSameSeat, IsSeatOf, buffer_key, sizes_of, view};
ghost use Rattle.cache_lookup.specs.Before.{HasNoPinOf};
ghost use Rattle.range_cache.specs.Caches.{pool_of};
ghost use Rattle.range_cache.specs.Fetches.{IsOfFile};
ghost use Rattle.range_cache.specs.Ranges.{IsHit, IsRanged, range_key};
ghost use Rattle.evicting_fetch.specs.Evictors.{IsEvictorOf};
ghost use Rattle.evicting_fetch.specs.Fetches.{IsGot as IsFetched};
ghost use Rattle.held_ranges.specs.Deeds.{gets, misses, how_of, key_at};
ghost use Rattle.held_ranges.specs.Moments.{DeskHolds, IsGot, IsMissed, IsReadOut, Ran, keys_of, moment, slot_at};

use crate::held::put;
use crate::{Desk, Held};
use evicting_fetch::fetch;
use ledgers::How2;
use outside::{Failed, FileRef, Store, World};
use range_cache::{Cache, How, Key, PoolSeat, Ranged};

/// How a range was got, as it is counted.
fn counted_as(how: &How) -> How2
    ensures { result ≡ how_of how.now }
{
    match how {
        How::Hit => How2::Hit,
        How::Filled => How2::Filled,
        How::Bypass(_) => How2::Bypass,
    }
}

/// Reads a range out of its buffer after a hit. After a miss the scratch has its bytes.
fn read_out<W: World>(cache: &Cache<W>, seat: &mut PoolSeat<W>, ranged: &Ranged, scratch: &mut [u8])
    requires seat { IsSeatOf (pool_of cache.now) seat.old }
    requires ranged { IsFetched (pool_of cache.now) seat.old (range_key ranged.now) ranged.now }
    requires len { length scratch.old ≡ (range_key ranged.now).len }
    requires bytes { IsHit ranged.now.how ⊎ IsContentOf W.files (buffer_key (range_key ranged.now)) scratch.old }
    ensures seat { IsSameSeat (pool_of cache.now) seat.old seat.new }
    ensures ranged { IsRanged (pool_of cache.now) seat.new ranged.now }
    ensures len { length scratch.new ≡ length scratch.old }
    ensures bytes { IsContentOf W.files (buffer_key (range_key ranged.now)) scratch.new }
    ensures out { IsReadOut W.files (pool_of cache.now) seat.old seat.new ranged.now ranged.now.how }
{
    match &ranged.how {
        How::Hit => ranged.read(cache, seat, &[], 0, scratch),
        How::Filled => {}
        How::Bypass(_) => {}
    }
}

/// Gets a range of a file, and counts how.
pub(crate) fn get_range<W: World, S: Store<W>>(
    desk: &mut Desk<'_, W, S>,
    key: Key,
    file: FileRef,
    scratch: &mut [u8],
) -> Result<Ranged, Failed>
    requires seat { IsSeatOf (pool_of desk.old.cache.now) desk.old.seat.now }
    requires evictor { IsEvictorOf (pool_of desk.old.cache.now) desk.old.evictor.now }
    requires key { IsKey key }
    requires file { IsOfFile key file }
    requires is_file { IsFile W.files file }
    requires fits { key.len ≤ 64 * (sizes_of (pool_of desk.old.cache.now)).min_block }
    requires no_pin { HasNoPinOf (buffer_key key) (view desk.old.seat.now) }
    requires scratch { length scratch.old ≡ key.len }
    ensures seat { IsSeatOf (pool_of desk.old.cache.now) desk.new.seat.now }
    ensures evictor { IsEvictorOf (pool_of desk.old.cache.now) desk.new.evictor.now }
    ensures ranged { IfOk result (λ r. IsRanged (pool_of desk.old.cache.now) desk.new.seat.now r × (range_key r ≡ key)) }
    ensures got { IfOk result (λ r. IsGot W.files S.reads key r desk.old desk.new) }
    ensures missed { OnErr result (IsMissed W.files S.reads key desk.old desk.new) }
    ensures len { length scratch.new ≡ length scratch.old }
    ensures bytes { OnOk result (IsContentOf W.files (buffer_key key) scratch.new) }
    ensures cause { HasCause (S.fault_count desk.old.store.now) (S.fault_count desk.new.store.now) result }
{
    let ranged = fetch(
        desk.cache,
        desk.seat,
        desk.evictor,
        desk.store,
        key,
        file,
        scratch,
    )?;
    read_out(desk.cache, desk.seat, &ranged, scratch);
    desk.totals
        .note(&counted_as(&ranged.how), ranged.evicted, ranged.moved);
    Ok(ranged)
}

/// Gets a range of a file for a slot, which holds it from then on.
///
/// The slot holds nothing, and no slot holds the key. The key is a range of the file, of at most `64 * min_block` bytes; `scratch` has its
/// length, and its bytes after `Ok`.
///
/// `Failed` comes only where the store's count of faults rose, and then the slots hold what they held.
pub(crate) fn get<W: World, S: Store<W>>(
    desk: &mut Desk<'_, W, S>,
    slots: &mut Vec<Option<Held>>,
    slot: usize,
    key: Key,
    file: FileRef,
    scratch: &mut [u8],
) -> Result<(), Failed>
    requires holding { DeskHolds (moment desk.old slots.old.items) }
    requires slot { slot < length slots.old.items }
    requires empty { slot_at slots.old.items slot ≡ None }
    requires new { (other : ℕ) → key_at (keys_of slots.old.items) other ≢ Some key }
    requires key { IsKey key }
    requires file { IsOfFile key file }
    requires is_file { IsFile W.files file }
    requires fits { key.len ≤ 64 * (sizes_of (pool_of desk.old.cache.now)).min_block }
    requires scratch { length scratch.old ≡ key.len }
    ensures holding { DeskHolds (moment desk.new slots.new.items) }
    ensures got { OnOk result (Ran W.files S.reads (moment desk.old slots.old.items) (gets slot key ∷ [])
        (moment desk.new slots.new.items)) }
    ensures keys { OnOk result (keys_of slots.new.items ≡ slice_set (keys_of slots.old.items) slot (Some key)) }
    ensures missed { OnErr result (Ran W.files S.reads (moment desk.old slots.old.items) (misses key ∷ [])
        (moment desk.new slots.new.items)) }
    ensures kept { OnErr result (slots.new.items ≡ slots.old.items) }
    ensures count { length slots.new.items ≡ length slots.old.items }
    ensures len { length scratch.new ≡ length scratch.old }
    ensures bytes { OnOk result (IsContentOf W.files (buffer_key key) scratch.new) }
    ensures cause { HasCause (S.fault_count desk.old.store.now) (S.fault_count desk.new.store.now) result }
{
    match get_range(desk, key, file, scratch) {
        Ok(ranged) => {
            put(desk.cache, desk.seat, slots, slot, Held { key, ranged });
            Ok(())
        }
        Err(failed) => Err(failed),
    }
}
