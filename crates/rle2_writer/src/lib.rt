//! Writers of runs of integers, version 2.
#![tactic(auto)]

mod base;
mod choice;
mod direct;
mod distances;
mod entries;
mod header;
mod int_stream2;
mod numbers;
mod packing;
mod patched;
mod patching;
mod sizes;
mod steps;
mod stretches;
mod widths;

pub use int_stream2::write_integers2;
