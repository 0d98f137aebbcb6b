//! A stripe's footer.

ghost use Rattle.std.specs.Prelude.{◌≡◌, Ok, IfOk};
ghost use Rattle.orc_tail.specs.Messages.{stream_of, encoding_of, stripe_footer_of};
ghost use Rattle.footer_writer.specs.Views.{part_view, stripe_footer_message};
ghost use Rattle.footer_writer.specs.Made.{AddsMessage, IsRead, IsStripeFooter};

use crate::messages::{encoding_message, stream_message};
use crate::stream_part::StreamPart;
use message_writer::push_bytes;
use orc_proto::laws::messages_are_read;
use orc_tail::Encoding;
use std::alloc::{AllocError, Global};

/// The stripe's footer with a stream more.
fn push_stream(alloc: Global, footer: Vec<u8>, stream: &StreamPart) -> Result<Vec<u8>, AllocError>
    ensures { IfOk result (λ after. AddsMessage footer.items after.items 1 stream_of (part_view stream.now)) }
{
    let message = stream_message(alloc, stream)?;
    let after = push_bytes(footer, 1, &message)?;
    Ok(after)
}

/// The stripe's footer with an encoding more.
fn push_encoding(alloc: Global, footer: Vec<u8>, encoding: &Encoding) -> Result<Vec<u8>, AllocError>
    ensures { IfOk result (λ after. AddsMessage footer.items after.items 2 encoding_of encoding.now) }
{
    let message = encoding_message(alloc, encoding)?;
    let after = push_bytes(footer, 2, &message)?;
    Ok(after)
}

/// The footer of a stripe with these streams, in the order in which they lie, and these encodings, that of type 0 first.
///
/// Refuses for want of memory alone.
///
/// Source: Apache ORC specification v1, "Stripe Footer".
pub fn write_stripe_footer(
    alloc: Global,
    streams: &[StreamPart],
    encodings: &[Encoding],
) -> Result<Vec<u8>, AllocError>
    ensures message { IfOk result (λ bytes. IsRead stripe_footer_of bytes.items (stripe_footer_message streams.now encodings.now)) }
    ensures read { IfOk result (λ bytes. IsStripeFooter bytes.items streams.now encodings.now) }
{
    messages_are_read();
    let mut footer = Vec::new(alloc);
    for stream in streams {
        footer = push_stream(alloc, footer, stream)?;
    }
    for encoding in encodings {
        footer = push_encoding(alloc, footer, encoding)?;
    }
    Ok(footer)
}
