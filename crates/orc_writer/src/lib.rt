//! The writer of ORC files: row by row, in stripes.
#![tactic(auto)]

mod column_spec;
mod ending;
mod fault;
mod making;
mod placing;
mod stripes;
mod waiting;
mod writer;

pub use column_spec::{ColumnSpec, Spelling};
pub use fault::MakeFault;
pub use table_columns::OpaqueStream;
pub use writer::Writer;
