//! The words of a plan: lines, words, names and literals, read from left to right.
#![tactic(auto)]

mod fault;
mod lines;
mod literals;
mod names;
mod pieces;
mod reading;
mod words;

pub use fault::{PlanKind, Stop};
pub use lines::{is_comment, split_lines, trim_return};
pub use literals::read_literal;
pub use names::{is_file_name, is_name, name_of};
pub use pieces::Pieces;
pub use reading::{
    read_end, read_file_name, read_keyword, read_name, read_name_list, read_option, read_word,
};
