//! Reads a stripe's footer.

ghost use Rattle.std.specs.Prelude.{◌≡◌, ◌<◌, ◌≤◌, ◌+◌, IfOk};
ghost use Rattle.outside.specs.Files.{IsFile};
ghost use Rattle.outside.specs.Followed.{Followed};
ghost use Rattle.orc_tail.specs.Reads.{ending, stripe_footer_plan};
ghost use Rattle.orc_tail.specs.StripeFooter.{FollowEachOther, footer_at};
ghost use Rattle.orc_tail.specs.Tail.{stripe_end};

use crate::fault::TailFault;
use crate::reads::read_range;
use crate::stripe::Stripe;
use crate::stripe_footer::{StripeFooter, stripe_footer_of_bytes};
use outside::{FileRef, RangeReader, World};
use std::alloc::Global;

/// Reads the footer of a stripe, in one read.
///
/// Offsets are in bytes, counted from the file's first byte. The streams follow each other from the stripe's
/// first byte on, and end before its footer.
///
/// Refuses by the first of three conditions: `Wire`, `StreamOutOfStripe` and `RootPresent`. `Read` comes
/// only where the reader failed in this call, and `NoMemory` where memory was refused.
///
/// Source: Apache ORC specification v1, "Stripe Footer".
pub fn read_stripe_footer<W: World, B: RangeReader<W>>(
    alloc: Global,
    reader: &mut B,
    file: FileRef,
    stripe: &Stripe,
) -> Result<StripeFooter, TailFault>
    requires number { file.number < 4096 }
    requires len { file.len ≤ 4294967295 }
    requires in_file { stripe_end stripe.now ≤ file.len }
    requires is_file { IsFile W.files file }
    ensures followed { Followed B.went B.fault_count W.files file ending (stripe_footer_plan file stripe.now) reader.old reader.new result }
    ensures follow { IfOk result (λ footer. FollowEachOther stripe.now.at (footer_at stripe.now) footer.streams) }
{
    let at = stripe.at + stripe.index_len + stripe.body_len;
    let footer = read_range(alloc, reader, file, at, stripe.footer_len)?;
    stripe_footer_of_bytes(alloc, stripe, footer.as_slice())
}
