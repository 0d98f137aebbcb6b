//! The lines that are the program's own.
ghost use Rattle.std.specs.Prelude.{◌≡◌};
ghost use Rattle.data_path.specs.OwnLine.{WrittenOwn};

use crate::status::Status;
use outside::Sink;

/// Writes a line of the program's own, and answers its exit status, or that of a write that failed.
///
/// Where the write fails a front of the line was written, and the sink's faults rose.
pub fn own_line<K: Sink>(out: &mut K, line: &[u8], code: u8) -> u8
    ensures { WrittenOwn (K.content out.old) (K.content out.new) (K.fault_count out.old) (K.fault_count out.new)
        line.now code result }
{
    match out.write(line) {
        Ok(()) => code,
        Err(_) => Status::WriteFault.code(),
    }
}
