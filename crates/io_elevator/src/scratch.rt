//! Memory that an elevator works in.
ghost use Rattle.std.specs.Prelude.{◌≡◌, ◌<◌, ◌≤◌, ◌+◌, ℕ, List, length, take, Some, slice_set, IfOk, IsTrue, map};
ghost use Rattle.outside.specs.Cause.{HasCause};
ghost use Rattle.pool_model.specs.Content.{told_bytes};
ghost use Rattle.buffer_pool.specs.Pools.{IsSeatOf, sizes_of, view};
ghost use Rattle.range_cache.specs.Caches.{pool_of};
ghost use Rattle.held_ranges.specs.Moments.{AreEmpty, DeskHolds, keys_of, moment};
ghost use Rattle.cut_streams.specs.Streams.{TakesBy, next_bytes};
ghost use Rattle.cut_streams.specs.Visits.{IsChunk};
ghost use Rattle.cut_streams.specs.Went.{Went};
ghost use Rattle.pool_rule.specs.declared.view.Hold.TheVariants.{Free};
ghost use Rattle.pool_rule.specs.Seats.{mark_at};
ghost use Rattle.io_elevator.specs.Books.{ClosesBy, cursor_at};
ghost use Rattle.io_elevator.specs.Sound.{AreCutBy, cursors_of, shut};

use crate::SoundStream;
use crate::closing::close_streams;
use held_ranges::{Desk, Held, empty_slots, free_slots, let_go_all};
use outside::{Failed, NoMemory, Store, World};
use range_cache::{Cache, PoolSeat};
use std::alloc::Global;

/// A slot and a stream's memory for each stream, and a slot for reads.
pub struct Scratch<W: World> {
    pub(crate) slots: Vec<Option<Held>>,
    pub(crate) streams: Vec<SoundStream<W>>,
}

/// The chunk by which the streams of a cache are cut: 16 of its smallest blocks.
pub(crate) fn chunk_for<W: World>(cache: &Cache<W>) -> u32
    ensures { IsChunk (sizes_of (pool_of cache.now)) result }
{
    16 * cache.pool().geometry().min_block
}

/// Adds a stream, or answers that memory was refused.
#[tactic(auto, using(crate::proofs::Streams::cut_more))]
fn push_stream<W: World>(
    streams: &mut Vec<SoundStream<W>>,
    stream: SoundStream<W>,
    chunk: u32,
) -> bool
    requires cut { AreCutBy chunk streams.old.items }
    requires new { stream.chunk ≡ chunk }
    ensures cut { AreCutBy chunk streams.new.items }
    ensures more { IsTrue result → length streams.new.items ≡ length streams.old.items + 1 }
{
    match streams.push(stream) {
        Ok(()) => true,
        Err(_) => false,
    }
}

/// So many streams without bytes, with memory for a chunk each.
fn empty_streams<W: World>(
    alloc: Global,
    chunk: u32,
    count: usize,
) -> Result<Vec<SoundStream<W>>, NoMemory>
    ensures count { IfOk result (λ streams. length streams.items ≡ count) }
    ensures cut { IfOk result (λ streams. AreCutBy chunk streams.items) }
{
    let mut streams = Vec::new(alloc);
    while streams.len() < count {
        let stream = SoundStream::new(alloc, chunk)?;
        if !push_stream(&mut streams, stream, chunk) {
            return Err(NoMemory);
        }
    }
    Ok(streams)
}

impl<W: World> Scratch<W> {
    ghost use Rattle.io_elevator.specs.Scratch.{IsFreshFor, IsIdle};

    /// Scratch for an elevator over that cache: 65 slots that hold nothing, and for each of 64 streams memory of a chunk. `NoMemory` where
    /// that is refused. The seat isn't used.
    #[tactic(auto, using(crate::proofs::Streams::fresh_is))]
    pub fn new(
        alloc: Global,
        cache: &Cache<W>,
        seat: &mut PoolSeat<W>,
    ) -> Result<Scratch<W>, NoMemory>
        requires seat { IsSeatOf (pool_of cache.now) seat.old }
        ensures seat { seat.new ≡ seat.old }
        ensures fresh { IfOk result (IsFreshFor (sizes_of (pool_of cache.now))) }
    {
        let chunk = chunk_for(cache);
        let streams = empty_streams(alloc, chunk, 64)?;
        match empty_slots(alloc, cache, seat, 65) {
            Ok(slots) => Ok(Scratch { slots, streams }),
            Err(_) => Err(NoMemory),
        }
    }

    /// Frees scratch in which nothing is held. Neither the cache nor the seat is used.
    pub fn free(self, cache: &Cache<W>, seat: &mut PoolSeat<W>)
        requires seat { IsSeatOf (pool_of cache.now) seat.old }
        requires idle { IsIdle self }
        ensures seat { seat.new ≡ seat.old }
    {
        let Scratch { slots, streams: _ } = self;
        free_slots(cache, seat, slots);
    }
}

/// Takes bytes from the front of what is left of a stream, through its slot.
pub(crate) fn take_at<W: World, S: Store<W>>(
    desk: &mut Desk<'_, W, S>,
    scratch: &mut Scratch<W>,
    slot: usize,
    chunk: u32,
    into: &mut [u8],
) -> Result<usize, Failed>
    requires holding { DeskHolds (moment desk.old scratch.old.slots.items) }
    requires stream { slot < length scratch.old.streams.items }
    requires slot { slot < length scratch.old.slots.items }
    requires chunk { IsChunk (sizes_of (pool_of desk.old.cache.now)) chunk }
    requires cut { AreCutBy chunk scratch.old.streams.items }
    ensures holding { DeskHolds (moment desk.new scratch.new.slots.items) }
    ensures went { Went W.files S.reads (moment desk.old scratch.old.slots.items) (moment desk.new scratch.new.slots.items)
        (TakesBy chunk slot (cursor_at (cursors_of scratch.old.streams.items) slot) (keys_of scratch.old.slots.items) result
        (cursor_at (cursors_of scratch.new.streams.items) slot)) }
    ensures cursors { cursors_of scratch.new.streams.items
        ≡ slice_set (cursors_of scratch.old.streams.items) slot (cursor_at (cursors_of scratch.new.streams.items) slot) }
    ensures cut { AreCutBy chunk scratch.new.streams.items }
    ensures streams { length scratch.new.streams.items ≡ length scratch.old.streams.items }
    ensures slots { length scratch.new.slots.items ≡ length scratch.old.slots.items }
    ensures room { IfOk result (λ n. n ≤ length into.old) }
    ensures bytes { IfOk result (λ n. (file : List ℕ)
        → told_bytes W.files (cursor_at (cursors_of scratch.old.streams.items) slot).range.file ≡ Some file
        → take n into.new ≡ next_bytes (cursor_at (cursors_of scratch.old.streams.items) slot) n file) }
    ensures inside { (file : List ℕ) → told_bytes W.files (cursor_at (cursors_of scratch.old.streams.items) slot).range.file ≡ Some file
        → 0 < (cursor_at (cursors_of scratch.old.streams.items) slot).range.len
        → (cursor_at (cursors_of scratch.old.streams.items) slot).range.at
        + (cursor_at (cursors_of scratch.old.streams.items) slot).range.len ≤ length file }
    ensures ends { IfOk result (λ n. 0 < length into.old → n ≡ 0
        → (cursor_at (cursors_of scratch.old.streams.items) slot).range.len
        ≤ (cursor_at (cursors_of scratch.old.streams.items) slot).taken) }
    ensures cause { HasCause (S.fault_count desk.old.store.now) (S.fault_count desk.new.store.now) result }
    ensures seat_name { desk.new.seat.ghost_name ≡ desk.old.seat.ghost_name }
    ensures evictor_name { desk.new.evictor.ghost_name ≡ desk.old.evictor.ghost_name }
    ensures store_name { desk.new.store.ghost_name ≡ desk.old.store.ghost_name }
    ensures totals_name { desk.new.totals.ghost_name ≡ desk.old.totals.ghost_name }
    ensures cache { desk.new.cache.now ≡ desk.old.cache.now }
{
    scratch.streams[slot].take(desk, &mut scratch.slots, slot, into)
}

/// Passes over bytes at the front of what is left of a stream, through its slot.
pub(crate) fn skip_at<W: World, S: Store<W>>(
    desk: &mut Desk<'_, W, S>,
    scratch: &mut Scratch<W>,
    slot: usize,
    chunk: u32,
    count: usize,
) -> Result<usize, Failed>
    requires holding { DeskHolds (moment desk.old scratch.old.slots.items) }
    requires stream { slot < length scratch.old.streams.items }
    requires slot { slot < length scratch.old.slots.items }
    requires chunk { IsChunk (sizes_of (pool_of desk.old.cache.now)) chunk }
    requires cut { AreCutBy chunk scratch.old.streams.items }
    ensures holding { DeskHolds (moment desk.new scratch.new.slots.items) }
    ensures went { Went W.files S.reads (moment desk.old scratch.old.slots.items) (moment desk.new scratch.new.slots.items)
        (TakesBy chunk slot (cursor_at (cursors_of scratch.old.streams.items) slot) (keys_of scratch.old.slots.items) result
        (cursor_at (cursors_of scratch.new.streams.items) slot)) }
    ensures cursors { cursors_of scratch.new.streams.items
        ≡ slice_set (cursors_of scratch.old.streams.items) slot (cursor_at (cursors_of scratch.new.streams.items) slot) }
    ensures cut { AreCutBy chunk scratch.new.streams.items }
    ensures streams { length scratch.new.streams.items ≡ length scratch.old.streams.items }
    ensures slots { length scratch.new.slots.items ≡ length scratch.old.slots.items }
    ensures room { IfOk result (λ n. n ≤ count) }
    ensures inside { (file : List ℕ) → told_bytes W.files (cursor_at (cursors_of scratch.old.streams.items) slot).range.file ≡ Some file
        → 0 < (cursor_at (cursors_of scratch.old.streams.items) slot).range.len
        → (cursor_at (cursors_of scratch.old.streams.items) slot).range.at
        + (cursor_at (cursors_of scratch.old.streams.items) slot).range.len ≤ length file }
    ensures ends { IfOk result (λ n. 0 < count → n ≡ 0
        → (cursor_at (cursors_of scratch.old.streams.items) slot).range.len
        ≤ (cursor_at (cursors_of scratch.old.streams.items) slot).taken) }
    ensures cause { HasCause (S.fault_count desk.old.store.now) (S.fault_count desk.new.store.now) result }
    ensures seat_name { desk.new.seat.ghost_name ≡ desk.old.seat.ghost_name }
    ensures evictor_name { desk.new.evictor.ghost_name ≡ desk.old.evictor.ghost_name }
    ensures store_name { desk.new.store.ghost_name ≡ desk.old.store.ghost_name }
    ensures totals_name { desk.new.totals.ghost_name ≡ desk.old.totals.ghost_name }
    ensures cache { desk.new.cache.now ≡ desk.old.cache.now }
{
    scratch.streams[slot].skip(desk, &mut scratch.slots, slot, count)
}

/// Lets go of all that slots hold, and closes all streams.
pub(crate) fn close_scratch<W: World, S: Store<W>>(
    desk: &mut Desk<'_, W, S>,
    scratch: &mut Scratch<W>,
    chunk: u32,
)
    requires holding { DeskHolds (moment desk.old scratch.old.slots.items) }
    requires cut { AreCutBy chunk scratch.old.streams.items }
    ensures holding { DeskHolds (moment desk.new scratch.new.slots.items) }
    ensures went { Went W.files S.reads (moment desk.old scratch.old.slots.items) (moment desk.new scratch.new.slots.items)
        (ClosesBy (keys_of scratch.old.slots.items)) }
    ensures closed { scratch.new.streams.items ≡ map shut scratch.old.streams.items }
    ensures cut { AreCutBy chunk scratch.new.streams.items }
    ensures streams { length scratch.new.streams.items ≡ length scratch.old.streams.items }
    ensures slots { length scratch.new.slots.items ≡ length scratch.old.slots.items }
    ensures empty { AreEmpty scratch.new.slots.items }
    ensures no_pin { (header : ℕ) → (mark_at (view desk.new.seat.now) header).hold ≡ Free }
    ensures store { desk.new.store.now ≡ desk.old.store.now }
    ensures evictor { desk.new.evictor.now ≡ desk.old.evictor.now }
    ensures seat_name { desk.new.seat.ghost_name ≡ desk.old.seat.ghost_name }
    ensures evictor_name { desk.new.evictor.ghost_name ≡ desk.old.evictor.ghost_name }
    ensures store_name { desk.new.store.ghost_name ≡ desk.old.store.ghost_name }
    ensures totals_name { desk.new.totals.ghost_name ≡ desk.old.totals.ghost_name }
    ensures cache { desk.new.cache.now ≡ desk.old.cache.now }
{
    let_go_all(desk, &mut scratch.slots);
    close_streams(&mut scratch.streams);
}
