//! Stores in memory give their files' bytes, log their reads, and fail at their calls.
ghost use Rattle.std.specs.Prelude.{◌≡◌, Some, IfSome};
ghost use Rattle.outside_tests.specs.ToldFiles.{told_files};
ghost use Rattle.outside_tests.specs.ToldWorld.{told_are_files};

use outside::{
    Bytes, Failed, FileRange, FileRef, MemoryStore, Name, RangeReader, Store, StoreReader,
    SureStore, World,
};
use std::alloc::Global;

/// The world of two files: `a` of three bytes, and `b` of four.
struct ToldWorld;

impl World for ToldWorld {
    ghost files = { Some told_files };

    ghost are_files = { λ told e. told_are_files told e };
}

const SECOND: FileRef = FileRef { number: 1, len: 4 };

/// The files of the world.
fn files(alloc: Global) -> Option<Vec<(Name, Bytes)>>
    ensures { IfSome result (λ files. files.items ≡ told_files) }
{
    let first = Name::new(String::from_str(alloc, "a").ok()?);
    let second = Name::new(String::from_str(alloc, "b").ok()?);
    let mut files = Vec::new(alloc);
    files
        .push((first, Bytes::new([1, 2, 3].to_vec(alloc).ok()?)))
        .ok()?;
    files
        .push((second, Bytes::new([4, 5, 6, 7].to_vec(alloc).ok()?)))
        .ok()?;
    Some(files)
}

/// What a read of the two bytes at 1 of the second file gives, or none where it fails.
fn read_second<S: Store<ToldWorld>>(store: &mut S) -> Option<[u8; 2]> {
    let mut into = [0u8; 2];
    match StoreReader::new(store).read(SECOND, 1, &mut into) {
        Ok(()) => Some(into),
        Err(Failed) => None,
    }
}

/// What the store answers to a look-up, a read, and another read.
fn answers<S: Store<ToldWorld>>(
    store: &mut S,
) -> (
    Result<Option<FileRef>, Failed>,
    Option<[u8; 2]>,
    Option<[u8; 2]>,
) {
    (store.find("b"), read_second(store), read_second(store))
}

const READ: FileRange = FileRange {
    file: 1,
    at: 1,
    len: 2,
};

/// Whether a sure store with that room answers all, and tells these reads.
fn sure_tells(alloc: Global, room: u32, told: Option<&[FileRange]>) -> Option<bool> {
    let mut store = SureStore::<ToldWorld>::new(alloc, files(alloc)?, room).ok()?;
    let all = (Ok(Some(SECOND)), Some([5, 6]), Some([5, 6]));
    let none = store.find("c") == Ok(None);
    Some(answers(&mut store) == all && store.logged() == told && store.faults() == 0 && none)
}

/// Whether a store whose second call is to fail fails there, counts it, and tells the other read.
fn failing_tells(alloc: Global) -> Option<bool> {
    let failing = [2].to_vec(alloc).ok()?;
    let mut store = MemoryStore::<ToldWorld>::new(alloc, files(alloc)?, failing, 2).ok()?;
    let answered = answers(&mut store) == (Ok(Some(SECOND)), None, Some([5, 6]));
    Some(answered && store.logged() == Some([READ].as_slice()) && store.faults() == 1)
}

#[test]
fn a_sure_store_gives_bytes_and_tells_its_reads(rt: HostRuntime) {
    assert!(rt; sure_tells(rt.alloc(), 2, Some(&[READ, READ])) == Some(true));
    assert!(rt; sure_tells(rt.alloc(), 1, None) == Some(true));
}

#[test]
fn a_store_in_memory_fails_at_its_calls(rt: HostRuntime) {
    assert!(rt; failing_tells(rt.alloc()) == Some(true));
}
