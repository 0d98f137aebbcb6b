//! Tests of the decoders of runs over their public calls: vectors of each format, each cut of a run, and each fault.
#![tactic(auto)]

#[cfg(test)]
mod bytes_and_bits;
#[cfg(test)]
mod laws;
#[cfg(test)]
mod version_one;
#[cfg(test)]
mod version_two;
