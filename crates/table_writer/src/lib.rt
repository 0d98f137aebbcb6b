//! Stripes of a table, behind the bytes of a file.
#![tactic(auto)]

mod columns;
mod listing;
mod opaque;
mod stripe;

pub use stripe::write_stripe;
