//! A generated file, made once and shared, and stores that have it beside their own files.
#![tactic(auto)]

mod bytes_sink;
mod generated;
mod made;

pub use generated::Generated;
pub use made::Made;
