//! Writes the footers of an ORC file's stripes, the footer of a file and its PostScript.
//!
//! What is written is read by `orc_tail`'s definitions as what was given.
#![tactic(auto)]

mod file_type;
mod footer;
mod messages;
mod postscript;
mod stream_part;
mod stripe_footer;

pub use file_type::FileType;
pub use footer::write_footer;
pub use postscript::push_postscript;
pub use stream_part::StreamPart;
pub use stripe_footer::write_stripe_footer;
