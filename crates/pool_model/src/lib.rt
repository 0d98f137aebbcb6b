//! The pool as a pure machine: buffers and grants over minimum blocks, and the fourteen steps that seats make.
//!
//! There is no thread, no word and no packed bit here: blocks are ranges of places, and holders are lists of seats.
//! `specs/` has the definitions; `PlainPool::apply` is the same machine as a program.
#![tactic(auto)]

mod apply;
mod block;
mod buffer;
mod buffer_steps;
mod content;
pub mod laws;
mod owned;
mod pool;
mod sequence;
mod setting;
mod step;

pub use block::Block;
pub use buffer::{Buffer, BufferKey, BufferMode, Target};
pub use pool::{GrantedBlock, PlainPool};
pub use sequence::Sequence;
pub use setting::Setting;
pub use step::{Step, StepFault};
