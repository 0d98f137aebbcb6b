//! Tests of the scan of a fragment over its public calls.
#![tactic(auto)]

#[cfg(test)]
mod files;
#[cfg(test)]
mod one_scan;
#[cfg(test)]
mod outcomes;
#[cfg(test)]
mod reads;
#[cfg(test)]
mod told;
