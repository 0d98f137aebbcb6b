//! What a line of a plan names: its columns, a new fragment, and fragments of earlier lines.
#![tactic(auto)]

mod columns;
mod earlier;
mod sources;

pub use columns::{Columns, read_column, read_column_list};
pub use earlier::KnownNames;
pub use sources::{read_after, read_new_name, read_sources};
