//! The tests of the board, over its public calls alone.
#![tactic(auto)]

#[cfg(test)]
mod boards;
#[cfg(test)]
mod moves;
#[cfg(test)]
mod random;
#[cfg(test)]
mod replays;
#[cfg(test)]
mod wanted;
