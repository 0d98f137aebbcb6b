//! The pool of buffers that seats share.
//!
//! A pool is made once, with all its memory. Each thread works on it through a seat of its own. No call but `create` takes
//! memory, and none waits. Every call is one or more atomic steps, and each step keeps the rule of `pool_rule`: there is
//! a lawful pool for which the words and the seats' views stand.
#![tactic(auto)]

mod buffers;
mod calls;
mod cells;
mod create;
mod evictions;
mod fault;
pub mod laws;
mod pins;
mod pool;
mod reading;
mod seat;
mod token;
mod touches;

pub use buffer_word::Key;
pub use buffers::{fill, open_header, publish};
pub use calls::{grant, join, look, split, ungrant};
pub use evictions::{begin_evict, release};
pub use fault::{Held, Lost, NotPinned, OpenFault};
pub use pins::{pin, unpin};
pub use pool::Pool;
pub use pool_rule::{Geometry, LostGrant, WordName};
pub use reading::read;
pub use seat::PoolSeat;
pub use token::{Evicting, Grant, NewBuffer, Pin};
pub use touches::{take_touches, tick, touch};
