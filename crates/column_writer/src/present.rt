//! The stream PRESENT.
ghost use Rattle.std.specs.Prelude.{IfOk};
ghost use Rattle.orc_columns.specs.Column.{ArePresent};

use orc_values::count_present;
use outside::{Bytes, NoMemory};
use rle_writer::write_bits;
use std::alloc::Global;

/// The stream that says which rows have a value: no byte where all have one.
pub(crate) fn present_stream(alloc: Global, flags: &[bool]) -> Result<Bytes, NoMemory>
    ensures { IfOk result (λ stream. ArePresent stream flags.now) }
{
    if count_present(flags) == flags.len() {
        return Ok(Bytes::new(Vec::new(alloc)));
    }
    let stream = write_bits(alloc, flags)?;
    Ok(Bytes::new(stream))
}
