//! Two files in a store that tells what it holds and was asked for.
ghost use Rattle.std.specs.Prelude.{◌≡◌, Some, IfSome};
ghost use Rattle.data_path_tests.specs.TwoFiles.{two_files, told_are_two};

use crate::top_call::told_status;
use outside::{Bytes, MemoryStore, Name, World};
use std::alloc::Global;

/// The world of two files, `a.orc` and `b.orc`: 100 rows of -4, and the numbers from 50 down to -49.
struct TwoWorld;

impl World for TwoWorld {
    ghost files = { Some two_files };

    ghost are_files = { λ told e. told_are_two told e };
}

const A_FILE: [u8; 68] = [
    0x4F, 0x52, 0x43, 0x61, 0x00, 0x07, 0x0A, 0x06, 0x08, 0x01, 0x10, 0x01, 0x18, 0x03, 0x12, 0x02,
    0x08, 0x00, 0x12, 0x02, 0x08, 0x00, 0x1A, 0x0A, 0x08, 0x03, 0x10, 0x00, 0x18, 0x03, 0x20, 0x10,
    0x28, 0x64, 0x22, 0x08, 0x08, 0x0C, 0x12, 0x01, 0x01, 0x1A, 0x01, 0x78, 0x22, 0x02, 0x08, 0x04,
    0x30, 0x64, 0x08, 0x1C, 0x10, 0x00, 0x22, 0x02, 0x00, 0x0C, 0x28, 0x00, 0x82, 0xF4, 0x03, 0x03,
    0x4F, 0x52, 0x43, 0x11,
];

const B_FILE: [u8; 68] = [
    0x4F, 0x52, 0x43, 0x61, 0xFF, 0x64, 0x0A, 0x06, 0x08, 0x01, 0x10, 0x01, 0x18, 0x03, 0x12, 0x02,
    0x08, 0x00, 0x12, 0x02, 0x08, 0x00, 0x1A, 0x0A, 0x08, 0x03, 0x10, 0x00, 0x18, 0x03, 0x20, 0x10,
    0x28, 0x64, 0x22, 0x08, 0x08, 0x0C, 0x12, 0x01, 0x01, 0x1A, 0x01, 0x78, 0x22, 0x02, 0x08, 0x04,
    0x30, 0x64, 0x08, 0x1C, 0x10, 0x00, 0x22, 0x02, 0x00, 0x0C, 0x28, 0x00, 0x82, 0xF4, 0x03, 0x03,
    0x4F, 0x52, 0x43, 0x11,
];

fn file_of(alloc: Global, name: &str, bytes: &[u8]) -> Option<(Name, Bytes)>
    ensures { IfSome result (λ file. file ≡ (name.now, bytes.now)) }
{
    let name = Name::new(String::from_str(alloc, name).ok()?);
    let bytes = Bytes::new(bytes.to_vec(alloc).ok()?);
    Some((name, bytes))
}

/// The files of the world.
fn files(alloc: Global) -> Option<Vec<(Name, Bytes)>>
    ensures { IfSome result (λ files. files.items ≡ two_files) }
{
    let mut files = Vec::new(alloc);
    files.push(file_of(alloc, "a.orc", &A_FILE)?).ok()?;
    files.push(file_of(alloc, "b.orc", &B_FILE)?).ok()?;
    Some(files)
}

/// A store of them, whose call of that number fails (0: none).
fn store_of(alloc: Global, failing: u64) -> Option<MemoryStore<TwoWorld>> {
    let files = files(alloc)?;
    match [failing].to_vec(alloc) {
        Ok(fails) => MemoryStore::new(alloc, files, fails, 16).ok(),
        Err(_) => None,
    }
}

/// Whether just so many reads were told.
fn has_told(store: &MemoryStore<TwoWorld>, reads: usize) -> bool {
    match store.logged() {
        Some(told) => told.len() == reads,
        None => false,
    }
}

/// Whether a plan over a store whose call of that number fails (0: none) writes that text, ends with that status and makes so many reads.
fn tells(alloc: Global, plan: &str, failing: u64, text: &str, ends: (u8, usize)) -> bool {
    match store_of(alloc, failing) {
        Some(mut store) => {
            told_status(alloc, plan, &mut store, text) == Some(ends.0) && has_told(&store, ends.1)
        }
        None => false,
    }
}

const SUMS: &str = "s sum x from a.orc\nt sum x from b.orc\n";

/// Plans, the number of the call that fails, the text, and the status and how many reads there are.
const ROWS: [(&str, u64, &str, (u8, usize)); 6] = [
    (
        SUMS,
        0,
        "s sum -400\nt sum 50\ncache hit 0 filled 8 bypass 0 evicted 0 moved 0\n",
        (0, 8),
    ),
    (
        SUMS,
        3,
        "s failed read fault\nt sum 50\ncache hit 0 filled 5 bypass 0 evicted 0 moved 0\n",
        (1, 5),
    ),
    (
        SUMS,
        6,
        "s sum -400\nt failed read fault\ncache hit 0 filled 4 bypass 0 evicted 0 moved 0\n",
        (1, 4),
    ),
    (
        "s sum x from a.orc\nt sum x from b.orc\nm merge t,s\n",
        3,
        "s failed read fault\nt sum 50\nm failed source s\ncache hit 0 filled 5 bypass 0 evicted 0 moved 0\n",
        (1, 5),
    ),
    (
        "a count from a.orc\nm merge a,z\nz count from b.orc",
        0,
        "plan line 2: unknown fragment\n",
        (3, 0),
    ),
    (
        "n count from a.orc\n",
        0,
        "n count 100\ncache hit 0 filled 2 bypass 0 evicted 0 moved 0\n",
        (0, 2),
    ),
];

fn all_tell(alloc: Global) -> bool {
    for (plan, failing, text, ends) in &ROWS {
        if !tells(alloc, plan, *failing, text, *ends) {
            return false;
        }
    }
    true
}

#[test]
fn a_failed_read_fails_its_scan_alone(rt: HostRuntime) {
    assert!(rt; all_tell(rt.alloc()));
}
