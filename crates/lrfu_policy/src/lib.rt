//! Which header's buffer to evict next: LRFU, by how often and how lately each was touched, with touches halved in steps.
//!
//! A `Policy` keeps an entry for each header that has one. `sync` notes touches, `forget` drops an entry, and
//! `next_victim` answers the entries in their order, one at a time. Headers are counted from 0. All memory is taken by
//! `Policy::new`; no other call takes any.
//!
//! Source: after LRFU (Lee and others, 2001); the stepped form is this project's own.
#![tactic(auto)]

mod entry;
pub mod laws;
mod policy;
mod rank;
mod sync;
mod tree;

pub use entry::Entry;
pub use policy::Policy;
pub use rank::Rank;
