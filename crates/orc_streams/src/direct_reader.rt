//! A reader that opens a stream by reading it whole into memory.
ghost use Rattle.std.specs.Prelude.{◌≡◌};

use crate::layout::Span;
use crate::stored_streams::StoredStreams;
use crate::stream_reader::{OpenFault, StreamReader};
use outside::{Failed, Feed, FileRef, RangeReader, Store, World};
use std::alloc::Global;
use std::marker::PhantomData;

/// A store that is read directly, and the streams that were opened, which lie in memory whole; it borrows both.
///
/// It goes by some acts where the store's log, if it is told afterwards, grew by the ranges that were read: those of reads that
/// answered `Ok`, and of openings. Takes and closings read nothing.
#[derive(Drop)]
pub struct DirectReader<'a, W: World, S: Store<W>> {
    /// The store.
    pub store: &'a mut S,
    /// The streams.
    pub streams: &'a mut StoredStreams,
    world: PhantomData<W>,
}

impl<'a, W: World, S: Store<W>> DirectReader<'a, W, S> {
    /// A reader of that store, with those streams open.
    pub fn new(store: &'a mut S, streams: &'a mut StoredStreams) -> DirectReader<'a, W, S>
        ensures same_reference { result.store.ghost_name ≡ store.entry.ghost_name }
        ensures same_store { result.store.now ≡ store.old }
        ensures same_streams { result.streams.now ≡ streams.old }
    {
        DirectReader {
            store,
            streams,
            world: PhantomData,
        }
    }
}

impl<'a, W: World, S: Store<W>> RangeReader<W> for DirectReader<'a, W, S> {
    ghost use Rattle.std.specs.Prelude.{◌≡◌, [], ◌∷◌, refl};
    ghost use Rattle.std.proofs.Common.{◌∙◌};
    ghost use Rattle.outside.specs.Told.{Extended, Extended-none};
    ghost use Rattle.outside.specs.Reads.{ranges_read, read_on};

    ghost fault_count = { λ r. S.fault_count r.store.now };

    ghost went = { λ first entries last. (last.store.ghost_name ≡ first.store.ghost_name) × (last.streams.now ≡ first.streams.now)
        × Extended (S.reads first.store.now) (S.reads last.store.now) (ranges_read entries) };

    ghost went_nowhere = { λ r. (refl, refl, Extended-none (S.reads r.store.now)) };

    ghost went_on = { λ first between last front back p q. (
      q.0 ∙ p.0,
      q.1 ∙ p.1,
      read_on (S.reads first.store.now) (S.reads between.store.now) (S.reads last.store.now) front back p.2 q.2,
    ) };

    ghost went_next = { λ first between last entry rest p q. (
      q.0 ∙ p.0,
      q.1 ∙ p.1,
      read_on (S.reads first.store.now) (S.reads between.store.now) (S.reads last.store.now) (entry ∷ []) rest p.2 q.2,
    ) };

    fn read(&mut self, file: FileRef, at: u64, into: &mut [u8]) -> Result<(), Failed> {
        self.store.read_at(file, at, into)
    }
}

impl<'a, W: World, S: Store<W>> Feed for DirectReader<'a, W, S> {
    ghost use Rattle.std.specs.Prelude.{◌≡◌, refl};
    ghost use Rattle.std.proofs.Common.{◌∙◌};
    ghost use Rattle.orc_streams.specs.StoredStreams.{rest_of, Fed, Fed-nothing, Fed-joined, Fed-then, Fed-sum};

    ghost rest = { λ r. rest_of r.streams.now };

    ghost fed = { λ first takes last. (last.store.ghost_name ≡ first.store.ghost_name) × (last.store.now ≡ first.store.now)
        × Fed first.streams.now takes last.streams.now };

    ghost fault_count = { λ r. S.fault_count r.store.now };

    fn take(&mut self, stream: u32, into: &mut [u8]) -> Result<usize, Failed> {
        self.streams.take(stream, into)
    }

    fn lent(&self, stream: u32) -> &[u8] {
        self.streams.lent(stream)
    }

    fn skip(&mut self, stream: u32, count: usize) -> Result<usize, Failed> {
        self.streams.skip(stream, count)
    }

    ghost fed_nothing = { λ r. (refl, refl, Fed-nothing r.streams.now) };

    ghost fed_joined = { λ first between last xs ys p q. (
      q.0 ∙ p.0,
      q.1 ∙ p.1,
      Fed-joined first.streams.now between.streams.now last.streams.now xs ys p.2 q.2,
    ) };

    ghost fed_then = { λ first between last x ys p q. (
      q.0 ∙ p.0,
      q.1 ∙ p.1,
      Fed-then first.streams.now between.streams.now last.streams.now x ys p.2 q.2,
    ) };

    ghost fed_sum = { λ first last before after stream m n p. (
      p.0,
      p.1,
      Fed-sum first.streams.now last.streams.now before after stream m n p.2,
    ) };

    ghost fed_lost = { λ first last takes stream led. led.2 stream };
}

impl<'a, W: World, S: Store<W>> StreamReader<W> for DirectReader<'a, W, S> {
    ghost use Rattle.std.specs.Prelude.{◌≡◌, [], ◌∷◌, refl};
    ghost use Rattle.std.proofs.Common.{ap, ◌∙◌};
    ghost use Rattle.outside.specs.Told.{Extended, Extended-none};
    ghost use Rattle.orc_streams.specs.Direct.{ranges_in, ranges_on, ranges_of_reads, ranges_of_takes};
    ghost use Rattle.orc_streams.specs.StoredStreams.{rest_of, same_left};

    ghost did = { λ first acts last. (last.store.ghost_name ≡ first.store.ghost_name)
        × Extended (S.reads first.store.now) (S.reads last.store.now) (ranges_in acts) };

    fn open(
        &mut self,
        alloc: Global,
        stream: u32,
        file: FileRef,
        span: Span,
    ) -> Result<(), OpenFault> {
        let Ok(mut bytes) = vec![in alloc; 0; span.len as usize] else {
            return Err(OpenFault::NoMemory);
        };
        let Ok(()) = self.streams.reserve(alloc, stream) else {
            return Err(OpenFault::NoMemory);
        };
        match self.store.read_at(file, span.at, &mut bytes) {
            Ok(()) => {
                self.streams.put(stream, bytes);
                Ok(())
            }
            Err(failed) => Err(OpenFault::Read(failed)),
        }
    }

    fn close(&mut self) {
        self.streams.clear();
    }

    ghost did_nothing = { λ r. (refl, Extended-none (S.reads r.store.now)) };

    ghost did_joined = { λ first between last front back p q. (
      q.0 ∙ p.0,
      ranges_on (S.reads first.store.now) (S.reads between.store.now) (S.reads last.store.now) front back p.1 q.1,
    ) };

    ghost did_next = { λ first between last act rest p q. (
      q.0 ∙ p.0,
      ranges_on (S.reads first.store.now) (S.reads between.store.now) (S.reads last.store.now) (act ∷ []) rest p.1 q.1,
    ) };

    ghost did_read = { λ first last entries p. (
      p.0,
      ranges_of_reads (S.reads first.store.now) (S.reads last.store.now) entries p.2,
    ) };

    ghost did_take = { λ first last takes p. (
      p.0,
      ranges_of_takes S.reads first.store.now last.store.now takes p.1,
    ) };

    ghost reads_leave = { λ first last entries stream p. ap (λ s. rest_of s stream) p.1 };

    ghost takes_leave = { λ first last takes stream led none. same_left none (led.2 stream) };

    ghost one_count = { λ r. refl };
}
