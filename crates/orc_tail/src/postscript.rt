//! The PostScript, the last message of a file, which says where the footer lies.

ghost use Rattle.std.specs.Prelude.{◌≡◌, ◌+◌, ◌≤◌, length, min, IfOk};
ghost use Rattle.orc_tail.specs.Messages.{postscript_value, postscript_of};
ghost use Rattle.orc_tail.specs.Tail.{footer_span as span_of, span_before as span_by};
ghost use Rattle.orc_proto.specs.Message.{entry_of};

use crate::fault::TailFault;
use crate::message::{Message, read_message};
use orc_proto::{Field, FieldValue};

/// The bytes that a file's last bytes are asked for at once: a PostScript has at most 255, and one byte
/// with its length follows it.
pub(crate) const LAST_BYTES: u64 = 256;

/// What this project uses of a PostScript.
///
/// Source: Apache ORC specification v1, "Postscript".
#[derive(Clone, Copy)]
pub(crate) struct PostScript {
    pub(crate) footer_length: u64,
    pub(crate) compression: u64,
    pub(crate) is_orc: bool,
}

/// A range of a file: its offset, counted from the file's first byte, and its bytes.
#[derive(Clone, Copy)]
pub(crate) struct Span {
    pub(crate) at: u64,
    pub(crate) len: u64,
}

impl Message for PostScript {
    ghost with_field = { λ s field. postscript_value s field.number field.value };

    fn with(self, field: &Field) -> PostScript {
        match (field.number, field.value) {
            (1, FieldValue::Varint(footer_length)) => PostScript {
                footer_length,
                ..self
            },
            (2, FieldValue::Varint(compression)) => PostScript {
                compression,
                ..self
            },
            (8000, FieldValue::Bytes(magic)) => PostScript {
                is_orc: magic == b"ORC".as_slice(),
                ..self
            },
            _ => self,
        }
    }
}

/// Reads a PostScript.
#[tactic(auto, unfolding(crate::specs::Messages::postscript_of))]
fn read_postscript(bytes: &[u8]) -> Result<PostScript, TailFault>
    ensures { result ≡ postscript_of bytes.now }
{
    let absent = PostScript {
        footer_length: 0,
        compression: 0,
        is_orc: false,
    };
    read_message(absent, bytes)
}

/// Where the footer lies before a PostScript of `postscript_len` bytes, in a file of `len` bytes.
#[tactic(auto, unfolding(crate::specs::Tail::span_before))]
fn span_before(len: u64, postscript_len: u8, postscript: PostScript) -> Result<Span, TailFault>
    requires { postscript_len + 1 ≤ len }
    ensures exact { result ≡ span_by len postscript_len postscript }
    ensures in_file { IfOk result (λ span. span.at + span.len ≤ len) }
{
    if !postscript.is_orc {
        return Err(TailFault::NotOrc);
    }
    if postscript.compression != 0 {
        return Err(TailFault::Compressed(postscript.compression));
    }
    let footer_end = len - 1 - u64::from(postscript_len);
    if footer_end < postscript.footer_length {
        return Err(TailFault::OutOfFile);
    }
    Ok(Span {
        at: footer_end - postscript.footer_length,
        len: postscript.footer_length,
    })
}

/// Where the footer lies in a file of `len` bytes, by the file's last bytes.
///
/// Refuses by TooShort, NotOrc, Compressed or OutOfFile, in this order.
#[tactic(auto, unfolding(crate::specs::Tail::footer_span))]
pub(crate) fn footer_span(len: u64, last: &[u8]) -> Result<Span, TailFault>
    requires { length last.now ≡ min len 256 }
    ensures exact { result ≡ span_of len last.now }
    ensures in_file { IfOk result (λ span. span.at + span.len ≤ len) }
{
    if len == 0 {
        return Err(TailFault::TooShort);
    }
    let end = last.len() - 1;
    let postscript_len = last[end];
    if len < u64::from(postscript_len) + 1 {
        return Err(TailFault::TooShort);
    }
    let start = end - usize::from(postscript_len);
    match read_postscript(&last[start..end]) {
        Ok(postscript) => span_before(len, postscript_len, postscript),
        Err(_) => Err(TailFault::NotOrc),
    }
}
