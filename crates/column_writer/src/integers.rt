//! Streams of integers, by their version.
ghost use Rattle.std.specs.Prelude.{IfOk};
ghost use Rattle.orc_columns.specs.Column.{AreNumbers};

use orc_columns::Version;
use outside::{Bytes, NoMemory};
use rle_writer::write_integers1;
use rle2_writer::write_integers2;
use std::alloc::Global;

/// The stream of these integers.
pub(crate) fn integer_stream(
    alloc: Global,
    version: Version,
    signed: bool,
    values: &[i64],
) -> Result<Bytes, NoMemory>
    ensures { IfOk result (λ stream. AreNumbers version signed stream values.now) }
{
    let stream = match version {
        Version::One => write_integers1(alloc, signed, values)?,
        Version::Two => write_integers2(alloc, signed, values)?,
    };
    Ok(Bytes::new(stream))
}
