//! The streams of a stripe: where those of a column lie, and readers that open streams at ranges of a file and feed them.
#![tactic(auto)]

mod direct_reader;
pub mod laws;
mod layout;
mod openings;
mod stored_streams;
mod stream_reader;

pub use direct_reader::DirectReader;
pub use layout::{ColumnLayout, ReadColumn, Span, layout_of, layouts_of};
pub use openings::{open_column, open_columns};
pub use stored_streams::StoredStreams;
pub use stream_reader::{OpenFault, StreamReader};
