//! The tail of an ORC file and the footers of its stripes: where the stripes, columns and streams lie.
#![tactic(auto)]

mod columns;
mod encoding;
mod fault;
mod footer;
mod footer_reading;
pub mod laws;
mod message;
mod postscript;
mod reads;
mod stream;
mod stripe;
mod stripe_footer;
mod tail;
mod tail_reading;
mod top_columns;
mod types;

pub use columns::{TopColumn, TopColumns};
pub use encoding::{Encoding, Encodings};
pub use fault::TailFault;
pub use footer_reading::read_stripe_footer;
pub use stream::{StreamRange, Streams};
pub use stripe::{Stripe, Stripes};
pub use stripe_footer::{StripeFooter, stream_of};
pub use tail::{Tail, column_named};
pub use tail_reading::read_tail;
