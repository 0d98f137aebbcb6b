ghost use Rattle.std.specs.Prelude.{◌≡◌, [], ◌∷◌, refl};
ghost use Rattle.std.proofs.Common.{◌∙◌};
ghost use Rattle.outside.specs.Told.{Extended, Extended-none};
ghost use Rattle.outside.specs.Reads.{ReadEntry, ranges_read, read_on};

use crate::{Failed, FileRef, RangeReader, Store, World};
use std::marker::PhantomData;

/// A reader that reads a store directly.
///
/// It goes by some reads where the store's log, if it is told afterwards, grew by those that answered
/// `Ok`.
#[derive(Drop)]
pub struct StoreReader<'a, W: World, S: Store<W>> {
    /// The store, borrowed.
    pub store: &'a mut S,
    world: PhantomData<W>,
}

impl<'a, W: World, S: Store<W>> StoreReader<'a, W, S> {
    /// A reader of that store.
    pub fn new(store: &'a mut S) -> StoreReader<'a, W, S>
        ensures same_reference { result.store.ghost_name ≡ store.entry.ghost_name }
        ensures same_store { result.store.now ≡ store.old }
    {
        StoreReader {
            store,
            world: PhantomData,
        }
    }
}

impl<'a, W: World, S: Store<W>> RangeReader<W> for StoreReader<'a, W, S> {
    ghost fault_count = { λ r. S.fault_count r.store.now };

    ghost went = { λ first entries last. (last.store.ghost_name ≡ first.store.ghost_name)
        × Extended (S.reads first.store.now) (S.reads last.store.now) (ranges_read entries) };

    ghost went_nowhere = { λ r. (refl, Extended-none (S.reads r.store.now)) };

    ghost went_on = { λ first between last front back p q. (
      q.0 ∙ p.0,
      read_on (S.reads first.store.now)
          (S.reads between.store.now) (S.reads last.store.now) front back p.1 q.1,
    ) };

    ghost went_next = { λ first between last entry rest p q. (
      q.0 ∙ p.0,
      read_on (S.reads first.store.now)
          (S.reads between.store.now) (S.reads last.store.now) (entry ∷ []) rest p.1 q.1,
    ) };

    fn read(&mut self, file: FileRef, at: u64, into: &mut [u8]) -> Result<(), Failed> {
        self.store.read_at(file, at, into)
    }
}
