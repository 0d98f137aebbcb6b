//! The tests of the pool's crates, over their public calls alone.
#![tactic(auto)]

#[cfg(test)]
mod blocks;
#[cfg(test)]
mod evictions;
#[cfg(test)]
mod grants;
#[cfg(test)]
mod packed_words;
#[cfg(test)]
mod plain_pool;
#[cfg(test)]
mod sharing;
#[cfg(test)]
mod sizes;
#[cfg(test)]
mod threads;
