//! A file's footer.

ghost use Rattle.std.specs.Prelude.{[], ℕ, IfOk};
ghost use Rattle.orc_tail.specs.Messages.{stripe_of, type_of, footer_of};
ghost use Rattle.footer_writer.specs.Views.{file_type_view, footer_message};
ghost use Rattle.footer_writer.specs.Made.{AddsMessage, IsRead, IsTypeSoFar, EndsWithNumber};

use crate::file_type::FileType;
use crate::messages::stripe_message;
use message_writer::{push_bytes, push_number, push_packed};
use orc_proto::laws::{messages_are_read, packed_numbers_are_read};
use orc_tail::Stripe;
use std::alloc::{AllocError, Global};

/// The file's footer with a stripe more.
fn push_stripe(alloc: Global, footer: Vec<u8>, stripe: &Stripe) -> Result<Vec<u8>, AllocError>
    ensures { IfOk result (λ after. AddsMessage footer.items after.items 3 stripe_of stripe.now) }
{
    let message = stripe_message(alloc, stripe)?;
    let after = push_bytes(footer, 3, &message)?;
    Ok(after)
}

/// The type's message with the numbers of its children, where it has any.
fn push_subtypes(alloc: Global, message: Vec<u8>, subtypes: &[u64]) -> Result<Vec<u8>, AllocError>
    ensures { IfOk result (λ after. (kind : ℕ) → IsTypeSoFar message.items kind [] [] → IsTypeSoFar after.items kind subtypes.now []) }
{
    packed_numbers_are_read();
    if subtypes.is_empty() {
        return Ok(message);
    }
    let after = push_packed(alloc, message, 2, subtypes)?;
    Ok(after)
}

/// The message of a type.
fn type_message(alloc: Global, file_type: &FileType) -> Result<Vec<u8>, AllocError>
    ensures { IfOk result (λ bytes. IsRead type_of bytes.items (file_type_view file_type.now)) }
{
    messages_are_read();
    let kind = push_number(Vec::new(alloc), 1, file_type.kind)?;
    let mut message = push_subtypes(alloc, kind, &file_type.subtypes)?;
    for name in &file_type.names {
        message = push_bytes(message, 3, name)?;
    }
    Ok(message)
}

/// The file's footer with a type more.
fn push_type(alloc: Global, footer: Vec<u8>, file_type: &FileType) -> Result<Vec<u8>, AllocError>
    ensures { IfOk result (λ after. AddsMessage footer.items after.items 4 type_of (file_type_view file_type.now)) }
{
    let message = type_message(alloc, file_type)?;
    let after = push_bytes(footer, 4, &message)?;
    Ok(after)
}

/// The footer of a file with these stripes and these types, each list in order, and the number of its rows as the last field.
///
/// Refuses for want of memory alone.
///
/// Source: Apache ORC specification v1, "Footer".
pub fn write_footer(
    alloc: Global,
    stripes: &[Stripe],
    types: &[FileType],
    rows: u64,
) -> Result<Vec<u8>, AllocError>
    ensures message { IfOk result (λ bytes. IsRead footer_of bytes.items (footer_message stripes.now types.now)) }
    ensures rows { IfOk result (λ bytes. EndsWithNumber bytes.items 6 rows) }
{
    messages_are_read();
    let mut footer = Vec::new(alloc);
    for stripe in stripes {
        footer = push_stripe(alloc, footer, stripe)?;
    }
    for file_type in types {
        footer = push_type(alloc, footer, file_type)?;
    }
    let whole = push_number(footer, 6, rows)?;
    Ok(whole)
}
