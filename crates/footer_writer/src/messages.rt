//! The messages that lie in a footer.

ghost use Rattle.std.specs.Prelude.{◌≡◌, Ok, IfOk};
ghost use Rattle.orc_tail.specs.Messages.{stream_of, encoding_of, stripe_of};
ghost use Rattle.footer_writer.specs.Views.{part_view};
ghost use Rattle.footer_writer.specs.Made.{IsRead};

use crate::stream_part::StreamPart;
use message_writer::push_number;
use orc_tail::laws::the_last_number_counts;
use orc_tail::{Encoding, Stripe};
use std::alloc::{AllocError, Global};

/// The message of a stream.
pub(crate) fn stream_message(alloc: Global, stream: &StreamPart) -> Result<Vec<u8>, AllocError>
    ensures { IfOk result (λ bytes. IsRead stream_of bytes.items (part_view stream.now)) }
{
    the_last_number_counts();
    let kind = push_number(Vec::new(alloc), 1, stream.kind)?;
    let column = push_number(kind, 2, stream.column)?;
    let message = push_number(column, 3, stream.len)?;
    Ok(message)
}

/// The message of an encoding. An empty dictionary isn't told.
pub(crate) fn encoding_message(alloc: Global, encoding: &Encoding) -> Result<Vec<u8>, AllocError>
    ensures { IfOk result (λ bytes. IsRead encoding_of bytes.items encoding.now) }
{
    the_last_number_counts();
    let kind = push_number(Vec::new(alloc), 1, encoding.kind)?;
    if encoding.dictionary_size == 0 {
        return Ok(kind);
    }
    let message = push_number(kind, 2, encoding.dictionary_size)?;
    Ok(message)
}

/// The message of a stripe.
pub(crate) fn stripe_message(alloc: Global, stripe: &Stripe) -> Result<Vec<u8>, AllocError>
    ensures { IfOk result (λ bytes. IsRead stripe_of bytes.items stripe.now) }
{
    the_last_number_counts();
    let at = push_number(Vec::new(alloc), 1, stripe.at)?;
    let index_len = push_number(at, 2, stripe.index_len)?;
    let body_len = push_number(index_len, 3, stripe.body_len)?;
    let footer_len = push_number(body_len, 4, stripe.footer_len)?;
    let message = push_number(footer_len, 5, stripe.rows)?;
    Ok(message)
}
