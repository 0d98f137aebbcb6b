//! Tests of scans through the shared cache, over public calls.
#![tactic(auto)]

#[cfg(test)]
mod files;
#[cfg(test)]
mod fragments;
#[cfg(test)]
mod one_file;
#[cfg(test)]
mod ranges;
#[cfg(test)]
mod reads;
#[cfg(test)]
mod through;
