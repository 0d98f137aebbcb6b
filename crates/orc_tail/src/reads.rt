//! One read of a range of a file.

ghost use Rattle.std.specs.Prelude.{◌≡◌, ◌<◌, ◌≤◌, ◌+◌, length, IfOk};
ghost use Rattle.outside.specs.Files.{IsFile};
ghost use Rattle.outside.specs.Followed.{Followed};
ghost use Rattle.orc_tail.specs.Reads.{ending, range_plan};

use crate::fault::TailFault;
use outside::{Bytes, FileRef, RangeReader, World};
use std::alloc::Global;

/// Reads `len` bytes of a file from `at` on, in one read.
///
/// `NoMemory` comes before the read.
pub(crate) fn read_range<W: World, B: RangeReader<W>>(
    alloc: Global,
    reader: &mut B,
    file: FileRef,
    at: u64,
    len: u64,
) -> Result<Bytes, TailFault>
    requires in_range { at + len ≤ file.len }
    requires number { file.number < 4096 }
    requires len { file.len ≤ 4294967295 }
    requires is_file { IsFile W.files file }
    ensures followed { Followed B.went B.fault_count W.files file ending (range_plan file at len) reader.old reader.new result }
    ensures len { IfOk result (λ bytes. length bytes ≡ len) }
{
    let mut bytes = vec![in alloc; 0; len as usize]?;
    reader.read(file, at, &mut bytes)?;
    Ok(Bytes::new(bytes))
}
