//! A file's footer: its stripes and its types.

ghost use Rattle.std.specs.Prelude.{◌≡◌, ◌+◌, ◌≤◌, ◌<◌, ◌^◌, length, nat_le, nat_lt, Ok, Err, All, IfOk, OnOk, MatchResult};
ghost use Rattle.orc_proto.specs.Message.{entry_of};
ghost use Rattle.orc_tail.specs.Reading.{Gives};
ghost use Rattle.orc_tail.specs.Messages.{footer_field, footer_of};
ghost use Rattle.orc_tail.specs.Tail.{stripe_end, stripes_end_by, stripes_within as within, tail_of_footer};
ghost use Rattle.orc_tail.specs.Views.{footer_view};

use crate::fault::TailFault;
use crate::stripe::{Stripe, Stripes, read_stripe};
use crate::tail::Tail;
use crate::top_columns::top_columns;
use crate::types::{ColumnType, read_type};
use orc_proto::{Field, FieldValue, Fields};
use std::alloc::Global;

/// The most stripes of a file that is read.
const MOST_STRIPES: usize = 1_000_000;

/// What this project uses of a footer.
///
/// Source: Apache ORC specification v1, "Footer".
#[derive(Drop)]
struct Footer<'a> {
    stripes: Vec<Stripe>,
    types: Vec<ColumnType<'a>>,
}

impl<'a> Footer<'a> {
    /// Takes one field more.
    fn take(&mut self, alloc: Global, field: &Field<'a>) -> Result<(), TailFault>
        ensures exact { Gives (λ _. footer_view self.new) result (footer_field (footer_view self.old) (entry_of field.now)) }
        ensures few { length self.new.types.items ≤ length self.old.types.items + 1 }
    {
        match (field.number, field.value) {
            (3, FieldValue::Bytes(bytes)) => self.stripes.push(read_stripe(bytes)?)?,
            (4, FieldValue::Bytes(bytes)) => self.types.push(read_type(alloc, bytes)?)?,
            _ => {}
        }
        Ok(())
    }
}

/// Reads a footer.
#[tactic(auto, using(crate::proofs::Few::fields_few), unfolding(crate::specs::Messages::footer_of))]
fn read_footer(alloc: Global, bytes: &[u8]) -> Result<Footer<'_>, TailFault>
    ensures exact { Gives footer_view result (footer_of bytes.now) }
    ensures few { IfOk result (λ footer. length footer.types.items ≤ length bytes.now) }
{
    let mut footer = Footer {
        stripes: Vec::new(alloc),
        types: Vec::new(alloc),
    };
    let mut fields = Fields::new(bytes);
    while let Some(field) = fields.next() {
        let field = field?;
        footer.take(alloc, &field)?;
    }
    Ok(footer)
}

/// Whether a stripe ends in a file of `len` bytes.
fn ends_by(stripe: &Stripe, len: u64) -> bool
    ensures { result ≡ nat_le (stripe_end stripe.now) len }
{
    let end = u128::from(stripe.at)
        + u128::from(stripe.index_len)
        + u128::from(stripe.body_len)
        + u128::from(stripe.footer_len);
    end <= u128::from(len)
}

/// Whether all stripes end in a file of `len` bytes.
fn all_end_by(stripes: &[Stripe], len: u64) -> bool
    ensures { result ≡ stripes_end_by len stripes.now }
{
    stripes.iter().all(|stripe| ends_by(stripe, len))
}

/// Refuses too many stripes, and one that doesn't end in a file of `len` bytes.
#[tactic(auto, using(crate::proofs::Ends::stripes_end), unfolding(crate::specs::Tail::stripes_within))]
fn stripes_within(len: u64, stripes: &[Stripe]) -> Result<(), TailFault>
    ensures exact { MatchResult result (λ _. within len stripes.now ≡ Ok stripes.now) (λ e. within len stripes.now ≡ Err e) }
    ensures few { OnOk result (length stripes.now ≤ 1000000) }
    ensures in_file { OnOk result (All (λ stripe. stripe_end stripe ≤ len) stripes.now) }
{
    if stripes.len() > MOST_STRIPES {
        return Err(TailFault::TooLarge);
    }
    if !all_end_by(stripes, len) {
        return Err(TailFault::OutOfFile);
    }
    Ok(())
}

/// The tail by the footer's bytes, in a file of `len` bytes.
///
/// Refuses by Wire, BadTypes, TooLarge or OutOfFile, in this order.
#[tactic(auto, unfolding(crate::specs::Tail::tail_of_footer))]
pub(crate) fn tail_of(alloc: Global, len: u64, bytes: &[u8]) -> Result<Tail, TailFault>
    requires { length bytes.now < 2 ^ 32 }
    ensures exact { Gives (λ tail. tail) result (tail_of_footer len bytes.now) }
    ensures few { IfOk result (λ tail. length tail.stripes ≤ 1000000) }
    ensures in_file { IfOk result (λ tail. All (λ stripe. stripe_end stripe ≤ len) tail.stripes) }
{
    let Footer { stripes, types } = read_footer(alloc, bytes)?;
    let columns = top_columns(alloc, &types)?;
    stripes_within(len, &stripes)?;
    Ok(Tail {
        stripes: Stripes::new(stripes),
        columns,
    })
}
