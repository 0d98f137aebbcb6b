//! Tests of `command_line` over its public calls.
#![tactic(auto)]

#[cfg(test)]
mod pages;
#[cfg(test)]
mod words;
