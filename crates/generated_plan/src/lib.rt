//! The name of a generated file, and the plan that is run over it.
#![tactic(auto)]

pub mod laws;
mod naming;
mod text;

pub use naming::file_name;
pub use text::generated_plan;
