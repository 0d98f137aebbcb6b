//! Texts by their lengths, and the numbers of a dictionary's entries. No stream is read here.
#![tactic(auto)]

mod lengths;
mod lookup;

pub use lengths::{ends_of, has_negative, laid_texts, room_after};
pub use lookup::is_any_past;
