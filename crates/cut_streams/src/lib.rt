//! Streams of files that are got cut by cut, through ranges that are held.
#![tactic(auto)]

mod cursor;
mod stream;
mod taking;
mod visiting;

pub use cursor::Cursor;
pub use stream::CutStream;
pub use taking::{skip_from, take_from};
pub use visiting::visit_cuts;
