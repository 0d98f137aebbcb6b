//! The words of a pool that seats share, what each seat knows of them, and the rule that ties them to a lawful pool.
//!
//! A pool is one table of atomic words: a word of bits for each arena, four words for each header, a clock, and the
//! cells. Each seat has a view: its numbers, what it holds and claims, its granted blocks, the words if it knows them,
//! and its trail. The rule says for which pool of `pool_model` words and views stand. It holds between any two steps,
//! whoever makes them. The functions of `Words` make one step each, and say what becomes of the view.
#![tactic(auto)]

mod aim;
mod atomics;
mod eviction_steps;
mod free_words;
mod geometry;
mod header_steps;
mod laid;
pub mod laws;
mod lost;
mod plays;
mod rule;
mod steps;
mod view;
mod word_step;
mod words;

pub use geometry::{Geometry, Setup, WordName};
pub use lost::LostGrant;
pub use rule::PoolRule;
pub use view::{Access, Claim, Event, Hold, Mark, TableSeat, View};
pub use word_step::WordStep;
pub use words::Words;
