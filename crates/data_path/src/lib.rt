//! The data path of a Hive LLAP daemon: reads a plan, scans ORC files and writes each fragment's result.
//!
//! `llapd` is the top call. The program of that name makes the real objects and calls it.
#![tactic(auto)]

mod cache_scanner;
mod faulty_plan;
mod folder;
mod inline;
mod names;
mod own_lines;
mod plan_bytes;
mod run;
mod status;
mod writing;

pub use cache_scanner::CacheScanner;
pub use faulty_plan::fault_line;
pub use folder::{FolderError, file_names};
pub use inline::alone;
pub use names::in_order;
pub use own_lines::own_line;
pub use plan_bytes::{PlanBytesError, read_all};
pub use run::llapd;
pub use status::Status;
pub use writing::written;
