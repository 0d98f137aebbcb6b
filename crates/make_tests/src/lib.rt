//! Tests of the writers over their public calls: what is written is read again by the decoders, and how many bytes it has.
#![tactic(auto)]

#[cfg(test)]
mod columns;
#[cfg(test)]
mod runs;
#[cfg(test)]
mod stripes;
#[cfg(test)]
mod tails;
