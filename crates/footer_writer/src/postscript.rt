//! A file's PostScript.

ghost use Rattle.std.specs.Prelude.{◌≤◌, length, IfOk};
ghost use Rattle.footer_writer.specs.Ends.{IsPostScript, EndsFile};

use message_writer::{push_bytes, push_number, push_packed};
use orc_proto::laws::varints_are_read;
use orc_tail::laws::the_last_number_counts;
use std::alloc::{AllocError, Global};

/// The version of the format that is written: 0.12.
const VERSION: [u64; 2] = [0, 12];

/// The PostScript of a file without compression and without metadata, whose footer has so many bytes.
fn postscript_message(alloc: Global, footer_len: u64) -> Result<Vec<u8>, AllocError>
    ensures read { IfOk result (λ bytes. IsPostScript bytes.items footer_len) }
    ensures short { IfOk result (λ bytes. length bytes.items ≤ 255) }
{
    the_last_number_counts();
    varints_are_read();
    let footer = push_number(Vec::new(alloc), 1, footer_len)?;
    let compression = push_number(footer, 2, 0)?;
    let version = push_packed(alloc, compression, 4, &VERSION)?;
    let metadata = push_number(version, 5, 0)?;
    let message = push_bytes(metadata, 8000, b"ORC")?;
    Ok(message)
}

/// The footer, and behind it the file's PostScript and the byte with the PostScript's length: the last bytes of a file that isn't
/// compressed and has no metadata.
///
/// A refused call, for want of memory alone, gives the footer up.
///
/// Source: Apache ORC specification v1, "Postscript".
pub fn push_postscript(alloc: Global, footer: Vec<u8>) -> Result<Vec<u8>, AllocError>
    ensures { IfOk result (λ after. EndsFile after.items footer.items) }
{
    let mut tail = footer;
    let postscript = postscript_message(alloc, tail.len() as u64)?;
    tail.extend_from_slice(&postscript)?;
    tail.push(postscript.len() as u8)?;
    Ok(tail)
}
