//! The tests of the cache's crates, over their public calls alone.
#![tactic(auto)]

#[cfg(test)]
mod fetches;
