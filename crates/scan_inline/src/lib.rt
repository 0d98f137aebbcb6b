//! Scans of fragments through the shared cache.
#![tactic(auto)]

mod inline;
mod through;

pub use inline::{scan_inline, scan_with};
pub use through::{counts_fit, scan_through};
