//! Tests of generated files, over the public calls of their crates and of `data_path`.
#![tactic(auto)]

#[cfg(test)]
mod asked;
#[cfg(test)]
mod files;
#[cfg(test)]
mod rows;
#[cfg(test)]
mod runs;
#[cfg(test)]
mod under;
#[cfg(test)]
mod web;
