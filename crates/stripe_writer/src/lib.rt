//! The data of a stripe: the streams of its columns, one behind the other.
#![tactic(auto)]

mod joining;
pub mod laws;
mod stream_bytes;

pub use joining::{join_streams, push_buffer, push_column, push_stream};
pub use stream_bytes::StreamBytes;
