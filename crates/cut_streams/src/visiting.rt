//! A range of a file is read cut by cut, and each cut is let go at once.
ghost use Rattle.std.specs.Prelude.{◌≡◌, ◌<◌, ◌≤◌, ◌+◌, ◌-◌, ◌*◌, ◌^◌, ℕ, List, length, OnOk, Some, slice_range};
ghost use Rattle.buffer_word.specs.KeyWord.{IsKey};
ghost use Rattle.outside.specs.Cause.{HasCause};
ghost use Rattle.outside.specs.Files.{IsFile};
ghost use Rattle.pool_model.specs.Content.{told_bytes};
ghost use Rattle.buffer_pool.specs.Pools.{IsContentOf, buffer_key, sizes_of};
ghost use Rattle.range_cache.specs.Caches.{pool_of};
ghost use Rattle.range_cache.specs.Fetches.{IsOfFile};
ghost use Rattle.range_cuts.specs.Cuts.{begun, cuts_from};
ghost use Rattle.range_cuts.specs.Laws.{bytes_of};
ghost use Rattle.held_ranges.specs.Moments.{DeskHolds, keys_of, moment};
ghost use Rattle.cut_streams.specs.Visits.{IsChunk, VisitEachBy, VisitsBy};
ghost use Rattle.cut_streams.specs.Went.{Went};

use held_ranges::{Desk, Held, let_go, swap};
use outside::{Failed, FileRef, Store, World};
use range_cache::Key;
use range_cuts::cut_ranges;
use range_cuts::laws::{cuts_begin, cuts_join};

/// Reads a range of a file through a slot, and lets it go.
fn visit<W: World, S: Store<W>>(
    desk: &mut Desk<'_, W, S>,
    slots: &mut Vec<Option<Held>>,
    slot: usize,
    key: Key,
    file: FileRef,
    into: &mut [u8],
) -> Result<(), Failed>
    requires holding { DeskHolds (moment desk.old slots.old.items) }
    requires slot { slot < length slots.old.items }
    requires key { IsKey key }
    requires file { IsOfFile key file }
    requires is_file { IsFile W.files file }
    requires fits { key.len ≤ 64 * (sizes_of (pool_of desk.old.cache.now)).min_block }
    requires into { length into.old ≡ key.len }
    ensures holding { DeskHolds (moment desk.new slots.new.items) }
    ensures went { Went W.files S.reads (moment desk.old slots.old.items) (moment desk.new slots.new.items)
        (VisitsBy slot key (keys_of slots.old.items) result) }
    ensures cache { desk.new.cache.now ≡ desk.old.cache.now }
    ensures count { length slots.new.items ≡ length slots.old.items }
    ensures len { length into.new ≡ length into.old }
    ensures bytes { OnOk result (IsContentOf W.files (buffer_key key) into.new) }
    ensures cause { HasCause (S.fault_count desk.old.store.now) (S.fault_count desk.new.store.now) result }
{
    match swap(desk, slots, slot, key, file, into) {
        Ok(()) => {
            let_go(desk, slots, slot);
            Ok(())
        }
        Err(failed) => Err(failed),
    }
}

/// Reads the cuts of a range of a file from the cut of that number on.
fn visit_from<W: World, S: Store<W>>(
    desk: &mut Desk<'_, W, S>,
    slots: &mut Vec<Option<Held>>,
    slot: usize,
    chunk: u32,
    file: FileRef,
    at: u64,
    len: u64,
    i: u64,
    into: &mut [u8],
) -> Result<(), Failed>
    requires holding { DeskHolds (moment desk.old slots.old.items) }
    requires slot { slot < length slots.old.items }
    requires chunk { IsChunk (sizes_of (pool_of desk.old.cache.now)) chunk }
    requires number { file.number < 4096 }
    requires file_len { file.len ≤ 4294967295 }
    requires is_file { IsFile W.files file }
    requires in_file { at + len ≤ file.len }
    requires into { length into.old ≡ len - i * chunk }
    ensures holding { DeskHolds (moment desk.new slots.new.items) }
    ensures went { Went W.files S.reads (moment desk.old slots.old.items) (moment desk.new slots.new.items)
        (VisitEachBy slot file.number at len chunk i (keys_of slots.old.items) result) }
    ensures count { length slots.new.items ≡ length slots.old.items }
    ensures len { length into.new ≡ length into.old }
    ensures bytes { OnOk result ((bytes : List ℕ) → told_bytes W.files file.number ≡ Some bytes
        → into.new ≡ bytes_of bytes (cuts_from at len chunk i (begun chunk len - i))) }
    ensures cause { HasCause (S.fault_count desk.old.store.now) (S.fault_count desk.new.store.now) result }
{
    cuts_begin();
    let Some((from, size)) = cut_ranges(at, len, chunk, i) else {
        return Ok(());
    };
    let (first, rest) = into.split_at_mut(size as usize);
    let key = Key {
        file: file.number,
        at: from,
        len: size,
    };
    match visit(desk, slots, slot, key, file, first) {
        Ok(()) => visit_from(desk, slots, slot, chunk, file, at, len, i + 1, rest),
        Err(failed) => Err(failed),
    }
}

/// Reads a range of a file, from `at` on, to fill `into`: cut by cut, each through the slot, which lets it go at once.
///
/// The chunk is that of the cache. The range lies in the file, which has a number below 4,096 and at most 4,294,967,295 bytes.
///
/// `Failed` comes only where the store's count of faults rose in this call, and then what `into` holds isn't promised; some cuts were
/// read, and the slot holds nothing. No memory is taken.
pub fn visit_cuts<W: World, S: Store<W>>(
    desk: &mut Desk<'_, W, S>,
    slots: &mut Vec<Option<Held>>,
    slot: usize,
    chunk: u32,
    file: FileRef,
    at: u64,
    into: &mut [u8],
) -> Result<(), Failed>
    requires holding { DeskHolds (moment desk.old slots.old.items) }
    requires slot { slot < length slots.old.items }
    requires chunk { IsChunk (sizes_of (pool_of desk.old.cache.now)) chunk }
    requires number { file.number < 4096 }
    requires file_len { file.len ≤ 4294967295 }
    requires is_file { IsFile W.files file }
    requires in_file { at + length into.old ≤ file.len }
    ensures holding { DeskHolds (moment desk.new slots.new.items) }
    ensures went { Went W.files S.reads (moment desk.old slots.old.items) (moment desk.new slots.new.items)
        (VisitEachBy slot file.number at (length into.old) chunk 0 (keys_of slots.old.items) result) }
    ensures count { length slots.new.items ≡ length slots.old.items }
    ensures len { length into.new ≡ length into.old }
    ensures bytes { OnOk result ((bytes : List ℕ) → told_bytes W.files file.number ≡ Some bytes
        → into.new ≡ slice_range bytes at (at + length into.old)) }
    ensures cause { HasCause (S.fault_count desk.old.store.now) (S.fault_count desk.new.store.now) result }
    ensures seat_name { desk.new.seat.ghost_name ≡ desk.old.seat.ghost_name }
    ensures evictor_name { desk.new.evictor.ghost_name ≡ desk.old.evictor.ghost_name }
    ensures store_name { desk.new.store.ghost_name ≡ desk.old.store.ghost_name }
    ensures totals_name { desk.new.totals.ghost_name ≡ desk.old.totals.ghost_name }
    ensures cache { desk.new.cache.now ≡ desk.old.cache.now }
{
    cuts_join();
    cuts_begin();
    let len = into.len() as u64;
    visit_from(desk, slots, slot, chunk, file, at, len, 0, into)
}
