//! A stream of a world's file that is got cut by cut.
ghost use Rattle.std.specs.Prelude.{◌≡◌, ◌<◌, ◌≤◌, ◌+◌, ◌^◌, ℕ, List, length, take, Some, IfOk, OnOk};
ghost use Rattle.outside.specs.Cause.{HasCause};
ghost use Rattle.outside.specs.Files.{range_of};
ghost use Rattle.pool_model.specs.Content.{told_bytes};
ghost use Rattle.buffer_pool.specs.Pools.{sizes_of};
ghost use Rattle.range_cache.specs.Caches.{pool_of};
ghost use Rattle.held_ranges.specs.Moments.{DeskHolds, keys_of, moment};
ghost use Rattle.orc_streams.specs.Readable.{IsReadable};
ghost use Rattle.cut_streams.specs.Streams.{TakesBy, closed, next_bytes, opened};
ghost use Rattle.cut_streams.specs.Visits.{IsChunk};
ghost use Rattle.cut_streams.specs.Went.{Went};

use cut_streams::{CutStream, skip_from, take_from};
use held_ranges::{Desk, Held};
use outside::{Failed, FileRef, NoMemory, Store, World};
use std::alloc::Global;
use std::marker::{Model, PhantomData};

/// A stream of a file of the world, with memory for the cut in which it stands.
///
/// Contracts see where it stands and by which chunk it is cut. Its type keeps that the range lies in its file, and that where a cut was
/// begun, its bytes lie in memory.
#[derive(Drop)]
pub struct SoundStream<W: World> {
    stream: CutStream,
    chunk: u32,
    world: PhantomData<W>,
}

impl<W: World> Model for SoundStream<W> {
    ghost use Rattle.cut_streams.specs.Streams.{IsSoundStream, cursor_of};
    ghost use Rattle.io_elevator.specs.Sound.{StreamOf};

    ghost Value = { StreamOf };

    ghost view = { λ s. record { cursor = cursor_of s.stream; chunk = s.chunk } };

    ghost invariant = { λ s. IsSoundStream W.files s.chunk s.stream };
}

impl<W: World> SoundStream<W> {
    /// A stream without bytes, with memory for a chunk; `NoMemory` where that is refused.
    pub fn new(alloc: Global, chunk: u32) -> Result<SoundStream<W>, NoMemory>
        ensures { IfOk result (λ s. s ≡ record { cursor = closed; chunk = chunk }) }
    {
        let stream = CutStream::new(alloc, chunk)?;
        Ok(SoundStream {
            stream,
            chunk,
            world: PhantomData,
        })
    }

    /// Notes the range of a file that the stream is from now on, of which nothing was taken.
    pub fn open(&mut self, file: FileRef, at: u64, len: u64)
        requires in_file { at + len ≤ file.len }
        requires readable { IsReadable W.files file }
        ensures { self.new ≡ record { cursor = opened (range_of file at len); chunk = self.old.chunk } }
    {
        self.stream.open(file, at, len);
    }

    /// Nothing is left of the stream from now on.
    pub fn close(&mut self)
        ensures { self.new ≡ record { cursor = closed; chunk = self.old.chunk } }
    {
        self.stream.close();
    }

    /// Takes bytes from the front of what is left, as `take_from` of `cut_streams`.
    pub fn take<S: Store<W>>(
        &mut self,
        desk: &mut Desk<'_, W, S>,
        slots: &mut Vec<Option<Held>>,
        slot: usize,
        into: &mut [u8],
    ) -> Result<usize, Failed>
        requires holding { DeskHolds (moment desk.old slots.old.items) }
        requires slot { slot < length slots.old.items }
        requires chunk { IsChunk (sizes_of (pool_of desk.old.cache.now)) self.old.chunk }
        ensures holding { DeskHolds (moment desk.new slots.new.items) }
        ensures went { Went W.files S.reads (moment desk.old slots.old.items) (moment desk.new slots.new.items)
            (TakesBy self.old.chunk slot self.old.cursor (keys_of slots.old.items) result self.new.cursor) }
        ensures chunk { self.new.chunk ≡ self.old.chunk }
        ensures count { length slots.new.items ≡ length slots.old.items }
        ensures room { IfOk result (λ n. n ≤ length into.old) }
        ensures bytes { IfOk result (λ n. (file : List ℕ) → told_bytes W.files self.old.cursor.range.file ≡ Some file
            → take n into.new ≡ next_bytes self.old.cursor n file) }
        ensures inside { (file : List ℕ) → told_bytes W.files self.old.cursor.range.file ≡ Some file → 0 < self.old.cursor.range.len
            → self.old.cursor.range.at + self.old.cursor.range.len ≤ length file }
        ensures ends { IfOk result (λ n. 0 < length into.old → n ≡ 0 → self.old.cursor.range.len ≤ self.old.cursor.taken) }
        ensures cause { HasCause (S.fault_count desk.old.store.now) (S.fault_count desk.new.store.now) result }
        ensures seat_name { desk.new.seat.ghost_name ≡ desk.old.seat.ghost_name }
        ensures evictor_name { desk.new.evictor.ghost_name ≡ desk.old.evictor.ghost_name }
        ensures store_name { desk.new.store.ghost_name ≡ desk.old.store.ghost_name }
        ensures totals_name { desk.new.totals.ghost_name ≡ desk.old.totals.ghost_name }
        ensures cache { desk.new.cache.now ≡ desk.old.cache.now }
    {
        take_from(desk, slots, slot, self.chunk, &mut self.stream, into)
    }

    /// Lends what is left of the cut in which it stands, as `lent` of `CutStream`.
    pub fn lent(&self) -> &[u8]
        requires some { 1 ≤ self.now.chunk }
        ensures inside { self.now.cursor.taken + length result.now ≤ self.now.cursor.range.len }
        ensures bytes { (file : List ℕ) → told_bytes W.files self.now.cursor.range.file ≡ Some file
            → result.now ≡ next_bytes self.now.cursor (length result.now) file }
    {
        self.stream.lent(self.chunk)
    }

    /// Passes over bytes at the front of what is left, as `skip_from` of `cut_streams`.
    pub fn skip<S: Store<W>>(
        &mut self,
        desk: &mut Desk<'_, W, S>,
        slots: &mut Vec<Option<Held>>,
        slot: usize,
        count: usize,
    ) -> Result<usize, Failed>
        requires holding { DeskHolds (moment desk.old slots.old.items) }
        requires slot { slot < length slots.old.items }
        requires chunk { IsChunk (sizes_of (pool_of desk.old.cache.now)) self.old.chunk }
        ensures holding { DeskHolds (moment desk.new slots.new.items) }
        ensures went { Went W.files S.reads (moment desk.old slots.old.items) (moment desk.new slots.new.items)
            (TakesBy self.old.chunk slot self.old.cursor (keys_of slots.old.items) result self.new.cursor) }
        ensures chunk { self.new.chunk ≡ self.old.chunk }
        ensures slots { length slots.new.items ≡ length slots.old.items }
        ensures room { IfOk result (λ n. n ≤ count) }
        ensures inside { (file : List ℕ) → told_bytes W.files self.old.cursor.range.file ≡ Some file → 0 < self.old.cursor.range.len
            → self.old.cursor.range.at + self.old.cursor.range.len ≤ length file }
        ensures ends { IfOk result (λ n. 0 < count → n ≡ 0 → self.old.cursor.range.len ≤ self.old.cursor.taken) }
        ensures cause { HasCause (S.fault_count desk.old.store.now) (S.fault_count desk.new.store.now) result }
        ensures seat_name { desk.new.seat.ghost_name ≡ desk.old.seat.ghost_name }
        ensures evictor_name { desk.new.evictor.ghost_name ≡ desk.old.evictor.ghost_name }
        ensures store_name { desk.new.store.ghost_name ≡ desk.old.store.ghost_name }
        ensures totals_name { desk.new.totals.ghost_name ≡ desk.old.totals.ghost_name }
        ensures cache { desk.new.cache.now ≡ desk.old.cache.now }
    {
        skip_from(desk, slots, slot, self.chunk, &mut self.stream, count)
    }
}
