//! What tests read from: stores of one file, whole files, and the worked file with a world of its own.
//!
//! The stores tell nothing to contracts, so what reads them is proved by what its contract says of a real file.
#![tactic(auto)]

mod files;
mod one_file;
mod pattern;
mod worked;

pub use files::{FIVE_KINDS, LONG_STRIPES};
pub use one_file::OneFile;
pub use pattern::{Pattern, byte_at};
pub use worked::{WORKED_FILE, WorkedWorld, worked_files};
