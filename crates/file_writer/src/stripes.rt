//! Stripes behind the bytes of a file.

ghost use Rattle.std.specs.Prelude.{◌≡◌, IfOk, OnErr};
ghost use Rattle.file_writer.specs.Stripes.{HasStripe};

use footer_writer::{StreamPart, write_stripe_footer};
use orc_tail::{Encoding, Stripe};
use std::alloc::{AllocError, Global};

/// Adds a stripe of that many rows behind the file's bytes: the bytes of its streams, joined in order, and its footer. Answers where
/// it lies.
///
/// The stripe has no index. It is made whole before it is added, so a refused call, for want of memory alone, leaves the file's bytes
/// as they were.
///
/// Source: Apache ORC specification v1, "Stripes".
pub fn push_stripe(
    alloc: Global,
    file: &mut Vec<u8>,
    body: Vec<u8>,
    streams: &[StreamPart],
    encodings: &[Encoding],
    rows: u64,
) -> Result<Stripe, AllocError>
    ensures ok { IfOk result (λ stripe. HasStripe file.old.items file.new.items stripe body.items streams.now encodings.now rows) }
    ensures err { OnErr result (file.new.items ≡ file.old.items) }
{
    let footer = write_stripe_footer(alloc, streams, encodings)?;
    let stripe = Stripe {
        at: file.len() as u64,
        index_len: 0,
        body_len: body.len() as u64,
        footer_len: footer.len() as u64,
        rows,
    };
    let mut whole = body;
    whole.extend_from_slice(&footer)?;
    file.extend_from_slice(&whole)?;
    Ok(stripe)
}
