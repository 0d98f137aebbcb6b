//! The writing of a generated file.
ghost use Rattle.outside.specs.Cause.{Cause};
ghost use Rattle.orc_writer.specs.Writing.{IsWrite};
ghost use Rattle.generated_file.specs.Making.{WroteGenerated};

use crate::pushing::with_rows;
use orc_writer::MakeFault;
use outside::{NoMemory, Sink};
use std::alloc::Global;

/// Writes the generated file of that number and so many rows: five columns, `id`, `even`, `city`, `note` and `qty`, in stripes of 10,000
/// rows, of which the last may have fewer. Which rows these are is said by `generated_rows`.
///
/// A stripe is encoded when it is full, and the file is written when it is whole. `Write` comes only where the sink's faults rose, and
/// a front of the file was written. After `NoMemory` nothing was written.
pub fn generate<K: Sink>(
    alloc: Global,
    number: u32,
    rows: u32,
    out: &mut K,
) -> Result<(), MakeFault>
    ensures wrote { WroteGenerated number rows (K.content out.old) (K.content out.new) result }
    ensures cause { Cause (K.fault_count out.old) (K.fault_count out.new) (IsWrite result) }
{
    match with_rows(alloc, number, rows) {
        Ok(writer) => writer.finish(out),
        Err(NoMemory) => Err(MakeFault::NoMemory),
    }
}
