//! The tests of the eviction policy, of what it learns of a pool and of its victims, over public calls alone.
#![tactic(auto)]

#[cfg(test)]
mod consults;
#[cfg(test)]
mod evictions;
#[cfg(test)]
mod syncs;
#[cfg(test)]
mod victims;
