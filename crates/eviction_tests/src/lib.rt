//! The tests of fetches that evict, over public calls alone.
#![tactic(auto)]

#[cfg(test)]
mod fetches;
#[cfg(test)]
mod full;
#[cfg(test)]
mod held;
#[cfg(test)]
mod plain;
#[cfg(test)]
mod random;
#[cfg(test)]
mod totals;
