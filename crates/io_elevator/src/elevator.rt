//! A reader of ranges and streams that goes through the cache.
ghost use Rattle.std.specs.Prelude.{◌≡◌, length};
ghost use Rattle.buffer_pool.specs.Pools.{sizes_of};
ghost use Rattle.range_cache.specs.Caches.{pool_of};
ghost use Rattle.evicting_fetch.specs.Evictors.{IsEvictorOf};
ghost use Rattle.cut_streams.specs.Visits.{IsChunk};
ghost use Rattle.io_elevator.specs.Sound.{AreCutBy, AreHeld};
ghost use Rattle.io_elevator.specs.SoundLaws.{held_once};

use crate::Scratch;
use crate::scratch::{chunk_for, close_scratch, skip_at, take_at};
use cut_streams::visit_cuts;
use evicting_fetch::Evictor;
use held_ranges::Desk;
use ledgers::CacheTotals;
use orc_streams::{OpenFault, Span, StreamReader};
use outside::{Failed, Feed, FileRef, RangeReader, Store, World};
use range_cache::{Cache, PoolSeat};
use std::alloc::Global;

/// A reader of ranges and streams that goes through a cache; it borrows the cache, a seat of it, what decides the cache's evictions, a
/// store, the counts of how ranges were got, and the memory that it works in.
#[derive(Drop)]
pub struct Elevator<'a, W: World, S: Store<W>> {
    /// The cache.
    pub cache: &'a Cache<W>,
    /// The seat.
    pub seat: &'a mut PoolSeat<W>,
    /// What decides evictions.
    pub evictor: &'a mut Evictor,
    /// The store.
    pub store: &'a mut S,
    /// The counts.
    pub totals: &'a mut CacheTotals,
    /// The scratch.
    pub scratch: &'a mut Scratch<W>,
    pub(crate) chunk: u32,
    pub ghost holding: { AreHeld cache.now seat.now scratch.now.slots.items } by { held_once cache.now seat.now scratch.now.slots.items },
    pub ghost evicts: { IsEvictorOf (pool_of cache.now) evictor.now },
    pub ghost chunk_is: { IsChunk (sizes_of (pool_of cache.now)) chunk },
    pub ghost slots: { length scratch.now.slots.items ≡ 65 },
    pub ghost streams: { length scratch.now.streams.items ≡ 64 },
    pub ghost cut: { AreCutBy chunk scratch.now.streams.items },
}

impl<'a, W: World, S: Store<W>> Elevator<'a, W, S> {
    ghost use Rattle.std.specs.Prelude.{ℕ, List, [], ◌∷◌, Some};
    ghost use Rattle.orc_streams.specs.Acts.{closes};
    ghost use Rattle.pool_rule.specs.declared.view.Hold.TheVariants.{Free};
    ghost use Rattle.pool_rule.specs.Seats.{mark_at};
    ghost use Rattle.buffer_pool.specs.Pools.{IsSeatOf, view};
    ghost use Rattle.io_elevator.specs.Elevator.{Did, rest_of};
    ghost use Rattle.io_elevator.specs.Scratch.{IsFreshFor, IsIdle};

    /// An elevator over that cache, through that seat, in front of that store, which evicts by that evictor, counts into those totals and
    /// works in that scratch.
    ///
    /// The seat is one of the cache's and has no pin; the evictor is one of the cache's; in the scratch, which is for that cache, nothing
    /// is held.
    #[tactic(auto, using(crate::proofs::Streams::fresh_holds, crate::proofs::Streams::fresh_cut))]
    pub fn new(
        cache: &'a Cache<W>,
        seat: &'a mut PoolSeat<W>,
        evictor: &'a mut Evictor,
        store: &'a mut S,
        totals: &'a mut CacheTotals,
        scratch: &'a mut Scratch<W>,
    ) -> Elevator<'a, W, S>
        requires seat { IsSeatOf (pool_of cache.now) seat.old }
        requires no_pin { (header : ℕ) → (mark_at (view seat.old) header).hold ≡ Free }
        requires evictor { IsEvictorOf (pool_of cache.now) evictor.old }
        requires fresh { IsFreshFor (sizes_of (pool_of cache.now)) scratch.old }
        ensures cache { result.cache.now ≡ cache.now }
        ensures seat_name { result.seat.ghost_name ≡ seat.entry.ghost_name }
        ensures seat { result.seat.now ≡ seat.old }
        ensures evictor_name { result.evictor.ghost_name ≡ evictor.entry.ghost_name }
        ensures evictor { result.evictor.now ≡ evictor.old }
        ensures store_name { result.store.ghost_name ≡ store.entry.ghost_name }
        ensures store { result.store.now ≡ store.old }
        ensures totals_name { result.totals.ghost_name ≡ totals.entry.ghost_name }
        ensures totals { result.totals.now ≡ totals.old }
        ensures scratch_name { result.scratch.ghost_name ≡ scratch.entry.ghost_name }
        ensures scratch { result.scratch.now ≡ scratch.old }
    {
        let chunk = chunk_for(cache);
        Elevator {
            cache,
            seat,
            evictor,
            store,
            totals,
            scratch,
            chunk,
        }
    }

    /// Drops all ranges that are held, and closes all streams: the seat has no pin then, and the scratch can be freed, or serve another
    /// elevator over the same cache.
    pub fn end(&mut self)
        ensures left { (stream : ℕ) (bytes : List ℕ) → rest_of W.files self.new stream ≡ Some bytes → bytes ≡ [] }
        ensures acts { Did W.files S.reads self.old (closes ∷ []) self.new }
        ensures idle { IsIdle self.new.scratch.now }
        ensures fresh { IsFreshFor (sizes_of (pool_of self.new.cache.now)) self.new.scratch.now }
        ensures no_pin { (header : ℕ) → (mark_at (view self.new.seat.now) header).hold ≡ Free }
        ensures seat { IsSeatOf (pool_of self.new.cache.now) self.new.seat.now }
        ensures evictor { self.new.evictor.now ≡ self.old.evictor.now }
        ensures store { self.new.store.now ≡ self.old.store.now }
        ensures cache { self.new.cache.now ≡ self.old.cache.now }
        ensures seat_name { self.new.seat.ghost_name ≡ self.old.seat.ghost_name }
        ensures evictor_name { self.new.evictor.ghost_name ≡ self.old.evictor.ghost_name }
        ensures store_name { self.new.store.ghost_name ≡ self.old.store.ghost_name }
        ensures totals_name { self.new.totals.ghost_name ≡ self.old.totals.ghost_name }
        ensures scratch_name { self.new.scratch.ghost_name ≡ self.old.scratch.ghost_name }
    {
        let mut desk = Desk {
            cache: self.cache,
            seat: &mut *self.seat,
            evictor: &mut *self.evictor,
            store: &mut *self.store,
            totals: &mut *self.totals,
        };
        close_scratch(&mut desk, self.scratch, self.chunk);
    }
}

impl<'a, W: World, S: Store<W>> RangeReader<W> for Elevator<'a, W, S> {
    ghost use Rattle.outside.specs.Reads.{ReadEntry};
    ghost use Rattle.orc_streams.specs.Acts.{read_acts};
    ghost use Rattle.io_elevator.specs.Elevator.{Did};
    ghost use Rattle.io_elevator.specs.Laws.{did_nothing, went_on};
    ghost use Rattle.std.specs.Prelude.{[], ◌∷◌};

    ghost fault_count = { λ e. S.fault_count e.store.now };

    ghost went = { λ first entries last. Did W.files S.reads first (read_acts entries) last };

    ghost went_nowhere = { λ e. did_nothing W.files S.reads e };

    ghost went_on = { λ first between last front back p q. went_on W.files S.reads first between last front back p q };

    ghost went_next = { λ first between last entry rest p q. went_on W.files S.reads first between last (entry ∷ []) rest p q };

    fn read(&mut self, file: FileRef, at: u64, into: &mut [u8]) -> Result<(), Failed> {
        let mut desk = Desk {
            cache: self.cache,
            seat: &mut *self.seat,
            evictor: &mut *self.evictor,
            store: &mut *self.store,
            totals: &mut *self.totals,
        };
        visit_cuts(
            &mut desk,
            &mut self.scratch.slots,
            64,
            self.chunk,
            file,
            at,
            into,
        )
    }
}

impl<'a, W: World, S: Store<W>> Feed for Elevator<'a, W, S> {
    ghost use Rattle.io_elevator.specs.Elevator.{rest_of};
    ghost use Rattle.io_elevator.specs.Laws.{Fed, fed_joined, fed_nothing, fed_sum};
    ghost use Rattle.std.specs.Prelude.{[], ◌∷◌};

    ghost rest = { λ e. rest_of W.files e };

    ghost fed = { λ first takes last. Fed W.files S.reads first takes last };

    ghost fault_count = { λ e. S.fault_count e.store.now };

    fn take(&mut self, stream: u32, into: &mut [u8]) -> Result<usize, Failed> {
        let slot = stream as usize;
        if slot >= self.scratch.streams.len() {
            return Ok(0);
        }
        let mut desk = Desk {
            cache: self.cache,
            seat: &mut *self.seat,
            evictor: &mut *self.evictor,
            store: &mut *self.store,
            totals: &mut *self.totals,
        };
        take_at(&mut desk, self.scratch, slot, self.chunk, into)
    }

    fn lent(&self, stream: u32) -> &[u8] {
        let slot = stream as usize;
        if slot >= self.scratch.streams.len() {
            return &[];
        }
        self.scratch.streams[slot].lent()
    }

    fn skip(&mut self, stream: u32, count: usize) -> Result<usize, Failed> {
        let slot = stream as usize;
        if slot >= self.scratch.streams.len() {
            return Ok(0);
        }
        let mut desk = Desk {
            cache: self.cache,
            seat: &mut *self.seat,
            evictor: &mut *self.evictor,
            store: &mut *self.store,
            totals: &mut *self.totals,
        };
        skip_at(&mut desk, self.scratch, slot, self.chunk, count)
    }

    ghost fed_nothing = { λ e. fed_nothing W.files S.reads e };

    ghost fed_joined = { λ first between last xs ys p q. fed_joined W.files S.reads first between last xs ys p q };

    ghost fed_then = { λ first between last x ys p q. fed_joined W.files S.reads first between last (x ∷ []) ys p q };

    ghost fed_sum = { λ first last before after stream m n p. fed_sum W.files S.reads first last before after stream m n p };

    ghost fed_lost = { λ first last takes stream p. p.lost stream };
}

impl<'a, W: World, S: Store<W>> StreamReader<W> for Elevator<'a, W, S> {
    ghost use Rattle.io_elevator.specs.Elevator.{Did};
    ghost use Rattle.io_elevator.specs.Laws.{did_joined, did_nothing, reads_leave, takes_leave};
    ghost use Rattle.std.specs.Prelude.{[], ◌∷◌, refl};

    ghost did = { λ first acts last. Did W.files S.reads first acts last };

    fn open(
        &mut self,
        alloc: Global,
        stream: u32,
        file: FileRef,
        span: Span,
    ) -> Result<(), OpenFault> {
        self.scratch.streams[stream as usize].open(file, span.at, span.len);
        Ok(())
    }

    fn close(&mut self) {
        self.end();
    }

    ghost did_nothing = { λ e. did_nothing W.files S.reads e };

    ghost did_joined = { λ first between last front back p q. did_joined W.files S.reads first between last front back p q };

    ghost did_next = { λ first between last act rest p q. did_joined W.files S.reads first between last (act ∷ []) rest p q };

    ghost did_read = { λ first last entries p. p };

    ghost did_take = { λ first last takes p. p.did };

    ghost reads_leave = { λ first last entries stream p. reads_leave W.files S.reads first last entries stream p };

    ghost takes_leave = { λ first last takes stream p none. takes_leave W.files S.reads first last takes stream p none };

    ghost one_count = { λ e. refl };
}
