//! Bytes are taken from a stream, and the cut that they begin with is got before.
ghost use Rattle.std.specs.Prelude.{◌≡◌, ◌<◌, ◌≤◌, ◌+◌, ◌^◌, ℕ, List, length, take, drop, OnOk, Some, IfOk};
ghost use Rattle.buffer_word.specs.KeyWord.{IsKey};
ghost use Rattle.outside.specs.Cause.{HasCause};
ghost use Rattle.pool_model.specs.Content.{told_bytes};
ghost use Rattle.buffer_pool.specs.Pools.{sizes_of};
ghost use Rattle.range_cache.specs.Caches.{pool_of};
ghost use Rattle.held_ranges.specs.Moments.{DeskHolds, keys_of, moment};
ghost use Rattle.cut_streams.specs.Streams.{IsOpen, IsReady, IsSoundStream, ReadiesBy, SwapsBy, TakesBy};
ghost use Rattle.cut_streams.specs.Streams.{bytes_in, cursor_of, file_len_of, key_behind, next_bytes, offset_in};
ghost use Rattle.cut_streams.specs.Visits.{IsChunk};
ghost use Rattle.cut_streams.specs.Went.{Went};

use crate::CutStream;
use crate::stream::{cut_size, offset_of};
use held_ranges::{Desk, Held, swap};
use outside::{Failed, FileRange, FileRef, Store, World};
use range_cache::Key;

/// The cut that begins so many bytes behind a range's start.
fn cut_behind(range: FileRange, before: u64, chunk: u32) -> Key
    requires some { 1 ≤ chunk }
    requires small { chunk ≤ 2 ^ 20 }
    requires more { before < range.len }
    requires lies { range.at + range.len ≤ 4294967295 }
    requires number { range.file < 4096 }
    ensures key { result ≡ key_behind chunk range before }
    ensures is_key { IsKey result }
    ensures inside { result.at + result.len ≤ range.at + range.len }
    ensures size { result.len ≤ chunk }
{
    Key {
        file: range.file,
        at: range.at + before,
        len: cut_size(range.len, chunk, before),
    }
}

/// Gets the cut that begins where the stream stands.
fn next_cut<W: World, S: Store<W>>(
    desk: &mut Desk<'_, W, S>,
    slots: &mut Vec<Option<Held>>,
    slot: usize,
    chunk: u32,
    stream: &mut CutStream,
) -> Result<(), Failed>
    requires holding { DeskHolds (moment desk.old slots.old.items) }
    requires slot { slot < length slots.old.items }
    requires chunk { IsChunk (sizes_of (pool_of desk.old.cache.now)) chunk }
    requires lies { IsOpen W.files (file_len_of stream.old) (cursor_of stream.old).range }
    requires room { length (bytes_in stream.old) ≡ chunk }
    requires more { (cursor_of stream.old).taken < (cursor_of stream.old).range.len }
    ensures holding { DeskHolds (moment desk.new slots.new.items) }
    ensures went { Went W.files S.reads (moment desk.old slots.old.items) (moment desk.new slots.new.items)
        (SwapsBy slot (key_behind chunk (cursor_of stream.old).range (cursor_of stream.old).taken) (keys_of slots.old.items) result) }
    ensures count { length slots.new.items ≡ length slots.old.items }
    ensures cursor { cursor_of stream.new ≡ cursor_of stream.old }
    ensures file { file_len_of stream.new ≡ file_len_of stream.old }
    ensures room { length (bytes_in stream.new) ≡ chunk }
    ensures ready { offset_in chunk (cursor_of stream.old) ≡ 0
        → OnOk result (IsReady W.files chunk (cursor_of stream.old) (bytes_in stream.new)) }
    ensures cause { HasCause (S.fault_count desk.old.store.now) (S.fault_count desk.new.store.now) result }
{
    let range = stream.cursor.range;
    let key = cut_behind(range, stream.cursor.taken, chunk);
    let file = FileRef {
        number: range.file,
        len: stream.file_len,
    };
    let (scratch, _rest) = stream.bytes.split_at_mut(key.len as usize);
    swap(desk, slots, slot, key, file, scratch)
}

/// Gets the cut of the stream's next byte, unless the stream stands in it.
fn make_ready<W: World, S: Store<W>>(
    desk: &mut Desk<'_, W, S>,
    slots: &mut Vec<Option<Held>>,
    slot: usize,
    chunk: u32,
    stream: &mut CutStream,
) -> Result<(), Failed>
    requires holding { DeskHolds (moment desk.old slots.old.items) }
    requires slot { slot < length slots.old.items }
    requires chunk { IsChunk (sizes_of (pool_of desk.old.cache.now)) chunk }
    requires sound { IsSoundStream W.files chunk stream.old }
    requires more { (cursor_of stream.old).taken < (cursor_of stream.old).range.len }
    ensures holding { DeskHolds (moment desk.new slots.new.items) }
    ensures went { Went W.files S.reads (moment desk.old slots.old.items) (moment desk.new slots.new.items)
        (ReadiesBy chunk slot (cursor_of stream.old) (keys_of slots.old.items) result) }
    ensures count { length slots.new.items ≡ length slots.old.items }
    ensures cursor { cursor_of stream.new ≡ cursor_of stream.old }
    ensures file { file_len_of stream.new ≡ file_len_of stream.old }
    ensures sound { IsSoundStream W.files chunk stream.new }
    ensures ready { OnOk result (IsReady W.files chunk (cursor_of stream.old) (bytes_in stream.new)) }
    ensures cause { HasCause (S.fault_count desk.old.store.now) (S.fault_count desk.new.store.now) result }
{
    if offset_of(stream.cursor, chunk) == 0 {
        next_cut(desk, slots, slot, chunk, stream)
    } else {
        Ok(())
    }
}

/// Passes over bytes at the front of what is left of a stream, at most `count`, and answers how many.
///
/// They are of one cut: the one in which the stream stands, or, where it stands between two, the next, which is got for its slot
/// before, in place of the one that the slot holds. It answers 0 for a `count` above 0 exactly at the stream's end. The chunk is that
/// of the cache. The bytes that were passed over lie in the stream's memory, from the offset on at which it stood in the cut.
///
/// `Failed` comes only where the store's count of faults rose in this call; then nothing was taken, and the slot holds nothing. No
/// memory is taken.
pub fn skip_from<W: World, S: Store<W>>(
    desk: &mut Desk<'_, W, S>,
    slots: &mut Vec<Option<Held>>,
    slot: usize,
    chunk: u32,
    stream: &mut CutStream,
    count: usize,
) -> Result<usize, Failed>
    requires holding { DeskHolds (moment desk.old slots.old.items) }
    requires slot { slot < length slots.old.items }
    requires chunk { IsChunk (sizes_of (pool_of desk.old.cache.now)) chunk }
    requires sound { IsSoundStream W.files chunk stream.old }
    ensures holding { DeskHolds (moment desk.new slots.new.items) }
    ensures went { Went W.files S.reads (moment desk.old slots.old.items) (moment desk.new slots.new.items)
        (TakesBy chunk slot (cursor_of stream.old) (keys_of slots.old.items) result (cursor_of stream.new)) }
    ensures slots { length slots.new.items ≡ length slots.old.items }
    ensures sound { IsSoundStream W.files chunk stream.new }
    ensures room { IfOk result (λ n. n ≤ count) }
    ensures within { IfOk result (λ n. offset_in chunk (cursor_of stream.old) + n ≤ chunk) }
    ensures bytes { IfOk result (λ n. (file : List ℕ) → told_bytes W.files (cursor_of stream.old).range.file ≡ Some file
        → take n (drop (offset_in chunk (cursor_of stream.old)) (bytes_in stream.new)) ≡ next_bytes (cursor_of stream.old) n file) }
    ensures ends { IfOk result (λ n. 0 < count → n ≡ 0
        → (cursor_of stream.old).range.len ≤ (cursor_of stream.old).taken) }
    ensures cause { HasCause (S.fault_count desk.old.store.now) (S.fault_count desk.new.store.now) result }
    ensures seat_name { desk.new.seat.ghost_name ≡ desk.old.seat.ghost_name }
    ensures evictor_name { desk.new.evictor.ghost_name ≡ desk.old.evictor.ghost_name }
    ensures store_name { desk.new.store.ghost_name ≡ desk.old.store.ghost_name }
    ensures totals_name { desk.new.totals.ghost_name ≡ desk.old.totals.ghost_name }
    ensures cache { desk.new.cache.now ≡ desk.old.cache.now }
{
    if count == 0 || stream.cursor.taken >= stream.cursor.range.len {
        return Ok(0);
    }
    match make_ready(desk, slots, slot, chunk, stream) {
        Ok(()) => Ok(stream.pass(chunk, count)),
        Err(failed) => Err(failed),
    }
}

/// Takes bytes from the front of what is left of a stream to the front of `into`, as `skip_from` passes over them, and answers how many.
///
/// It answers 0 for a non-empty `into` exactly at the stream's end.
///
/// `Failed` comes only where the store's count of faults rose in this call; then nothing was taken, and the slot holds nothing. No
/// memory is taken.
pub fn take_from<W: World, S: Store<W>>(
    desk: &mut Desk<'_, W, S>,
    slots: &mut Vec<Option<Held>>,
    slot: usize,
    chunk: u32,
    stream: &mut CutStream,
    into: &mut [u8],
) -> Result<usize, Failed>
    requires holding { DeskHolds (moment desk.old slots.old.items) }
    requires slot { slot < length slots.old.items }
    requires chunk { IsChunk (sizes_of (pool_of desk.old.cache.now)) chunk }
    requires sound { IsSoundStream W.files chunk stream.old }
    ensures holding { DeskHolds (moment desk.new slots.new.items) }
    ensures went { Went W.files S.reads (moment desk.old slots.old.items) (moment desk.new slots.new.items)
        (TakesBy chunk slot (cursor_of stream.old) (keys_of slots.old.items) result (cursor_of stream.new)) }
    ensures count { length slots.new.items ≡ length slots.old.items }
    ensures sound { IsSoundStream W.files chunk stream.new }
    ensures room { IfOk result (λ n. n ≤ length into.old) }
    ensures bytes { IfOk result (λ n. (file : List ℕ) → told_bytes W.files (cursor_of stream.old).range.file ≡ Some file
        → take n into.new ≡ next_bytes (cursor_of stream.old) n file) }
    ensures ends { IfOk result (λ n. 0 < length into.old → n ≡ 0
        → (cursor_of stream.old).range.len ≤ (cursor_of stream.old).taken) }
    ensures cause { HasCause (S.fault_count desk.old.store.now) (S.fault_count desk.new.store.now) result }
    ensures seat_name { desk.new.seat.ghost_name ≡ desk.old.seat.ghost_name }
    ensures evictor_name { desk.new.evictor.ghost_name ≡ desk.old.evictor.ghost_name }
    ensures store_name { desk.new.store.ghost_name ≡ desk.old.store.ghost_name }
    ensures totals_name { desk.new.totals.ghost_name ≡ desk.old.totals.ghost_name }
    ensures cache { desk.new.cache.now ≡ desk.old.cache.now }
{
    let offset = offset_of(stream.cursor, chunk) as usize;
    match skip_from(desk, slots, slot, chunk, stream, into.len()) {
        Ok(len) => {
            stream.copy(offset, len, into);
            Ok(len)
        }
        Err(failed) => Err(failed),
    }
}
