//! Runs a plan: its scans by whoever scans, its merges by the outcomes of their sources; and writes the results.
#![tactic(auto)]

pub mod laws;
mod merging;
mod outcomes;
mod run;
mod scanner;
mod writing;

pub use outcomes::Outcomes;
pub use run::run_plan;
pub use scanner::Scanner;
pub use writing::write_results;
