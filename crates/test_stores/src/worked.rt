//! The worked file, and the world that has it alone.
ghost use Rattle.std.specs.Prelude.{◌≡◌, Some, IfSome};
ghost use Rattle.test_stores.specs.Worked.{worked_files, told_are_files};

use outside::{Bytes, Name, World};
use std::alloc::Global;

/// The bytes of a file of one LONG column `x`, DIRECT, and one stripe of 100 rows, each of them -4: the header, the values, the
/// stripe's footer, the footer with the stripe and the types, the postscript and its length.
///
/// Source: Apache ORC specification v1.
pub const WORKED_FILE: [u8; 68] = [
    0x4F, 0x52, 0x43, 0x61, 0x00, 0x07, 0x0A, 0x06, 0x08, 0x01, 0x10, 0x01, 0x18, 0x03, 0x12, 0x02,
    0x08, 0x00, 0x12, 0x02, 0x08, 0x00, 0x1A, 0x0A, 0x08, 0x03, 0x10, 0x00, 0x18, 0x03, 0x20, 0x10,
    0x28, 0x64, 0x22, 0x08, 0x08, 0x0C, 0x12, 0x01, 0x01, 0x1A, 0x01, 0x78, 0x22, 0x02, 0x08, 0x04,
    0x30, 0x64, 0x08, 0x1C, 0x10, 0x00, 0x22, 0x02, 0x00, 0x0C, 0x28, 0x00, 0x82, 0xF4, 0x03, 0x03,
    0x4F, 0x52, 0x43, 0x11,
];

/// The world of the worked file, `t.orc`, which it tells.
pub struct WorkedWorld;

impl World for WorkedWorld {
    ghost files = { Some worked_files };

    ghost are_files = { λ told e. told_are_files told e };
}

/// The files of that world; None where memory was refused.
pub fn worked_files(alloc: Global) -> Option<Vec<(Name, Bytes)>>
    ensures { IfSome result (λ files. files.items ≡ worked_files) }
{
    let name = Name::new(String::from_str(alloc, "t.orc").ok()?);
    let bytes = Bytes::new(WORKED_FILE.to_vec(alloc).ok()?);
    let mut files = Vec::new(alloc);
    files.push((name, bytes)).ok()?;
    Some(files)
}
