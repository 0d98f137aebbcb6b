//! How the tail of a file in memory is read.
ghost use Rattle.std.specs.Prelude.{◌≡◌};

use orc_tail::{Tail, TailFault, read_tail};
use outside::{FileRef, RealWorld, StoreReader};
use std::alloc::Global;
use test_stores::OneFile;

/// A store of a file of these bytes, whose reads all succeed.
pub(crate) fn store_of(alloc: Global, bytes: &[u8]) -> OneFile<'_> {
    OneFile::new(alloc, bytes, usize::MAX)
}

/// The tail of the file of these bytes, as long as `file` says.
pub(crate) fn read_as(
    alloc: Global,
    store: &mut OneFile<'_>,
    file: FileRef,
) -> Result<Tail, TailFault>
    requires { file.number ≡ 0 }
{
    read_tail(alloc, &mut StoreReader::<RealWorld, _>::new(store), file)
}

/// The tail of a store's file.
pub(crate) fn tail_of(alloc: Global, store: &mut OneFile<'_>) -> Result<Tail, TailFault> {
    let file = store.file();
    read_as(alloc, store, file)
}
