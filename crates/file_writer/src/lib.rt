//! Puts stripes behind the bytes of an ORC file.
//!
//! A stripe that was put there is found at its place, with its streams and its footer, whatever follows.
#![tactic(auto)]

mod stripes;

pub use stripes::push_stripe;
