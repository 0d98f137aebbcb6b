//! A stripe's footer: its streams and its encodings.

ghost use Rattle.std.specs.Prelude.{◌≡◌, ◌≤◌, ◌<◌, ◌+◌, ◌^◌, sum_by, option_copied, IfOk, IfErr};
ghost use Rattle.orc_proto.specs.Message.{entry_of};
ghost use Rattle.orc_tail.specs.Reading.{Gives, Fails};
ghost use Rattle.orc_tail.specs.Messages.{stripe_footer_field, stripe_footer_of};
ghost use Rattle.orc_tail.specs.StripeFooter.{streams_within as streams_in, placed, stripe_footer_in, first_stream, has_bytes, FollowEachOther, footer_at};
ghost use Rattle.orc_tail.specs.Views.{stripe_footer_view};

use crate::encoding::{Encoding, Encodings, read_encoding};
use crate::fault::TailFault;
use crate::stream::{Stream, StreamRange, Streams, read_stream};
use crate::stripe::Stripe;
use orc_proto::{Field, FieldValue, Fields};
use std::alloc::Global;

/// What a stripe's footer says: where its streams lie, and how its columns are spelled.
///
/// Source: Apache ORC specification v1, "Stripe Footer".
#[derive(Drop)]
pub struct StripeFooter {
    /// The streams, in the order in which they lie.
    pub streams: Streams,
    /// The encodings, that of type 0 first.
    pub encodings: Encodings,
}

/// The first stream of this kind and column, or None where there is none.
pub fn stream_of(footer: &StripeFooter, kind: u64, column: u64) -> Option<StreamRange>
    ensures { result ≡ first_stream kind column footer.now.streams }
{
    find_stream(footer.streams.as_slice(), kind, column).copied()
}

/// The first stream of this kind and column, lent.
fn find_stream(streams: &[StreamRange], kind: u64, column: u64) -> Option<&StreamRange>
    ensures { option_copied result ≡ first_stream kind column streams.now }
{
    streams
        .iter()
        .find(|stream| stream.kind == kind && stream.column == column)
}

/// The streams and encodings of a stripe footer, as it spells them.
#[derive(Drop)]
struct FooterParts {
    streams: Vec<Stream>,
    encodings: Vec<Encoding>,
}

impl FooterParts {
    /// Takes one field more.
    fn take(&mut self, field: &Field) -> Result<(), TailFault>
        ensures { Gives (λ _. stripe_footer_view self.new) result (stripe_footer_field (stripe_footer_view self.old) (entry_of field.now)) }
    {
        match (field.number, field.value) {
            (1, FieldValue::Bytes(bytes)) => self.streams.push(read_stream(bytes)?)?,
            (2, FieldValue::Bytes(bytes)) => self.encodings.push(read_encoding(bytes)?)?,
            _ => {}
        }
        Ok(())
    }
}

/// Reads the streams and encodings of a stripe footer.
#[tactic(auto, unfolding(crate::specs::Messages::stripe_footer_of))]
fn read_parts(alloc: Global, bytes: &[u8]) -> Result<FooterParts, TailFault>
    ensures { Gives stripe_footer_view result (stripe_footer_of bytes.now) }
{
    let mut parts = FooterParts {
        streams: Vec::new(alloc),
        encodings: Vec::new(alloc),
    };
    let mut fields = Fields::new(bytes);
    while let Some(field) = fields.next() {
        let field = field?;
        parts.take(&field)?;
    }
    Ok(parts)
}

/// Gives each stream its offset, from the stripe's first byte on.
///
/// Refuses by StreamOutOfStripe.
#[tactic(auto, unfolding(crate::specs::StripeFooter::streams_within))]
fn place_streams(
    alloc: Global,
    stripe: &Stripe,
    streams: &[Stream],
) -> Result<Vec<StreamRange>, TailFault>
    requires { footer_at stripe.now < 2 ^ 64 }
    ensures ok { IfOk result (λ ranges. (ranges.items ≡ placed stripe.now.at streams.now)
        × (sum_by (λ s. s.len) streams.now ≤ stripe.now.index_len + stripe.now.body_len)) }
    ensures out { IfErr result (λ e. Fails e (streams_in stripe.now streams.now)) }
{
    let end = stripe.at + stripe.index_len + stripe.body_len;
    let mut at = stripe.at;
    let mut ranges = Vec::new(alloc);
    for stream in streams {
        if end - at < stream.len {
            return Err(TailFault::StreamOutOfStripe);
        }
        ranges.push(StreamRange {
            kind: stream.kind,
            column: stream.column,
            at,
            len: stream.len,
        })?;
        at += stream.len;
    }
    Ok(ranges)
}

/// Whether the root column has a PRESENT stream with bytes.
fn has_root_present(streams: &[StreamRange]) -> bool
    ensures { result ≡ has_bytes (first_stream 0 0 streams.now) }
{
    match find_stream(streams, 0, 0) {
        Some(stream) => stream.len > 0,
        None => false,
    }
}

/// The footer of a stripe by the footer's bytes.
///
/// Refuses by Wire, StreamOutOfStripe or RootPresent, in this order.
#[tactic(auto, unfolding(crate::specs::StripeFooter::stripe_footer_in, crate::specs::StripeFooter::streams_within))]
pub(crate) fn stripe_footer_of_bytes(
    alloc: Global,
    stripe: &Stripe,
    bytes: &[u8],
) -> Result<StripeFooter, TailFault>
    requires { footer_at stripe.now < 2 ^ 64 }
    ensures exact { Gives (λ footer. footer) result (stripe_footer_in stripe.now bytes.now) }
    ensures follow { IfOk result (λ footer. FollowEachOther stripe.now.at (footer_at stripe.now) footer.streams) }
{
    let FooterParts { streams, encodings } = read_parts(alloc, bytes)?;
    let ranges = place_streams(alloc, stripe, &streams)?;
    if has_root_present(&ranges) {
        return Err(TailFault::RootPresent);
    }
    Ok(StripeFooter {
        streams: Streams::new(ranges),
        encodings: Encodings::new(encodings),
    })
}
