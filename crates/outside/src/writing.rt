//! Writing to a writer that may take fewer bytes than it is given.
ghost use Rattle.std.specs.Prelude.{◌≡◌};
ghost use Rattle.std.specs.Io.{WritesAtMost};
ghost use Rattle.std.specs.Io.KnownBytes.{WriteAppends};
ghost use Rattle.outside.specs.Writing.{WritesWhole};

use std::io::{self, ErrorKind, Write};

/// Writes all of the bytes, in as many writes as the writer needs, and flushes it.
///
/// Where it fails, a front of them was written. A writer that takes no byte is an error.
pub fn write_whole<P: Write>(output: &mut P, bytes: &[u8]) -> io::Result<()>
    ensures { WritesWhole (P.contents output.old) (P.contents output.new) result bytes.now }
{
    let mut done = 0;
    while done < bytes.len() {
        let len = write_again(output, &bytes[done..])?;
        if len == 0 {
            return Err(io::Error::from(ErrorKind::WriteZero));
        }
        done += len;
    }
    output.flush()
}

/// One write, made again where a signal interrupted it.
fn write_again<P: Write>(output: &mut P, bytes: &[u8]) -> io::Result<usize>
    ensures fits { WritesAtMost result bytes.now }
    ensures known { WriteAppends (P.contents output.old) (P.contents output.new) result bytes.now }
{
    for _ in 0..u64::MAX {
        match output.write(bytes) {
            Err(e) if e.kind() == ErrorKind::Interrupted => {}
            written => return written,
        }
    }
    Err(io::Error::from(ErrorKind::Interrupted))
}
