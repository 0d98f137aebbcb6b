//! Counts of what happened: of ranges that were got through the cache, and of fragments on a board. And their two printed lines.
#![tactic(auto)]

mod board_totals;
mod cache_totals;
mod line;
mod totals_text;

pub use board_totals::BoardTotals;
pub use cache_totals::{CacheTotals, How2};
pub use totals_text::{write_cache, write_totals};
