//! The blocks of an arena: 64 minimum blocks, and one word in which a set bit is a minimum block that is out.
//!
//! A block of order k is `2^k` minimum blocks at a place that is a multiple of `2^k`. `find` answers where a
//! block can be had, `window` which block costs least to clear, `mask` which bits a block has, and `order_for`
//! how large a block must be. Places and orders are counted in minimum blocks, here within one arena. `laws` has
//! what these answers and masks mean for the bits of a word.
//!
//! Source: this project's own; after the buddy system.
#![tactic(auto)]

mod blocks;
mod free_blocks;
pub mod laws;
mod windows;

pub use blocks::{mask, order_for};
pub use free_blocks::find;
pub use windows::window;
