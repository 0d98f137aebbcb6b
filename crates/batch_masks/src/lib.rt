//! Which rows of a batch pass, and the total of their numbers: loops over typed lists.
#![tactic(auto)]

mod chosen;
mod compares;
mod mask;
mod moves;
mod narrow;
mod total;
mod whole;

pub use mask::mask_of;
pub use total::{Total, with_kept};
pub use whole::with_all;
