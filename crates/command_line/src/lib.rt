//! The command line of `llapd`: its options, read by `clap`, and what it says of itself.
#![tactic(auto)]

mod command;
pub mod laws;
mod pages;
mod reading;
mod settings;
mod words;

pub use pages::{HELP_PAGE, help_page, page_asked_for, usage_line, version_line};
pub use settings::{Options, WordsFault};
pub use words::options;
