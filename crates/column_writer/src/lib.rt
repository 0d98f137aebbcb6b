//! The streams of a column of a stripe, from its values.
#![tactic(auto)]

mod column_buffer;
mod dictionary;
mod encoded;
mod encoding;
mod integers;
mod kept;
mod present;
mod row_push;
mod texts;

pub use column_buffer::ColumnBuffer;
pub use encoded::Encoded;
pub use encoding::encode;
pub use kept::Kept;
pub use row_push::push_row;
