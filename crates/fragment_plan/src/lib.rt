//! The plan language: the fragments of a plan, read from its bytes.
#![tactic(auto)]

mod earlier;
mod error;
mod fragment;
mod fragments;
pub mod laws;
mod line;
mod names;
mod numbers;
mod plan;
mod queries;
mod reader;
mod same;
mod shape;
mod test;
mod test_reader;

pub use error::PlanError;
pub use fragment::{FoldKind, Fragment, Scan, Work};
pub use names::Names;
pub use numbers::Numbers;
pub use plan::Plan;
pub use plan_words::PlanKind;
pub use queries::{named_by, width};
pub use reader::read_plan;
pub use shape::Shape;
pub use test::{Check, Op, Test, Tests};
