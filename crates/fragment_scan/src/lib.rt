//! The scan of a fragment over a file.
#![tactic(auto)]

mod file_scan;
mod store_scan;
mod stripes_fold;

pub use file_scan::scan_file;
pub use store_scan::scan;
