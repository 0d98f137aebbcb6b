//! Tests of `outside` over its public calls: each source, sink and store once, failing and not.
#![tactic(auto)]

#[cfg(test)]
mod feeds;
#[cfg(test)]
mod folders;
#[cfg(test)]
mod sinks;
#[cfg(test)]
mod sources;
#[cfg(test)]
mod stores;
#[cfg(test)]
mod writers;
