//! The packed words of the buffer pool: a header's state in one word, and its key in another.
//!
//! A state word has the mode's flag, the count of those who use the buffer, and the block's order and place.
//! A key word has the file's number and the range in that file. The pool changes a state word by adding and
//! subtracting; `laws` and the functions of `changes` say which state each of these changes gives.
//!
//! Source: this project's own format.
#![tactic(auto)]

mod changes;
mod key_word;
pub mod laws;
mod state_word;

pub use changes::{release_step, settle_step};
pub use key_word::{Key, pack_key, unpack_key};
pub use state_word::{Mode, State, pack, unpack};
