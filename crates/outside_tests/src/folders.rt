//! A folder is a store, which tells its files apart.
ghost use Rattle.std.specs.Prelude.{◌≡◌, IfSome};
ghost use Rattle.outside_tests.specs.TwoNames.{two_names};

use outside::{FileRef, FolderStore, Name, RealWorld, Store};
use std::alloc::Global;
use std::fs;

const FIRST: FileRef = FileRef { number: 0, len: 4 };

const SECOND: FileRef = FileRef { number: 1, len: 5 };

/// The names of two files.
fn names(alloc: Global) -> Option<Vec<Name>>
    ensures { IfSome result (λ names. names.items ≡ two_names) }
{
    let first = Name::new(String::from_str(alloc, "folder_a.orc").ok()?);
    let second = Name::new(String::from_str(alloc, "folder_b.orc").ok()?);
    let mut names = Vec::new(alloc);
    names.push(first).ok()?;
    names.push(second).ok()?;
    Some(names)
}

/// Whether both files were written.
fn write_files(rt: HostRuntime) -> bool {
    fs::write(&rt, "folder_a.orc", "abcd").is_ok()
        && fs::write(&rt, "folder_b.orc", "vwxyz").is_ok()
}

/// Whether both files are gone.
fn remove_files(rt: HostRuntime) -> bool {
    fs::remove_file(&rt, "folder_a.orc").is_ok() && fs::remove_file(&rt, "folder_b.orc").is_ok()
}

/// Whether each file is found by its name, and no other is.
fn finds<S: Store<RealWorld>>(store: &mut S) -> bool {
    store.find("folder_a.orc") == Ok(Some(FIRST))
        && store.find("folder_b.orc") == Ok(Some(SECOND))
        && store.find("folder_c.orc") == Ok(None)
}

/// The two bytes of that file at 2, or none where the read fails.
fn read_two<S: Store<RealWorld>>(store: &mut S, file: FileRef) -> Option<[u8; 2]> {
    let mut into = [0u8; 2];
    if file.len < 4 || store.read_at(file, 2, &mut into).is_err() {
        return None;
    }
    Some(into)
}

/// Whether reads of the two files in turn give each file's bytes.
fn reads_in_turn<S: Store<RealWorld>>(store: &mut S) -> bool {
    [FIRST, SECOND, FIRST]
        .iter()
        .map(|file| read_two(store, *file))
        .eq([Some(*b"cd"), Some(*b"xy"), Some(*b"cd")])
}

/// Whether reads of two bytes at 3, in a file of four, and of a file that isn't there fail and are counted.
fn refuses<S: Store<RealWorld>>(store: &mut S) -> bool {
    let mut into = [0u8; 2];
    let past_the_end = store.read_at(FileRef { number: 0, len: 9 }, 3, &mut into);
    let no_file = store.read_at(FileRef { number: 2, len: 9 }, 3, &mut into);
    past_the_end.is_err() && no_file.is_err() && store.faults() == 2
}

fn tells_files_apart(rt: HostRuntime) -> Option<bool> {
    let names = names(rt.alloc())?;
    let written = write_files(rt);
    let mut store = FolderStore::new(rt, names.as_slice());
    let told = finds(&mut store) && reads_in_turn(&mut store) && refuses(&mut store);
    let removed = remove_files(rt) && store.find("folder_a.orc").is_err();
    Some(written && told && removed && store.faults() == 3)
}

#[test]
fn a_folder_tells_its_files_apart(rt: HostRuntime) {
    assert!(rt; tells_files_apart(rt) == Some(true));
}
