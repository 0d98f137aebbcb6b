//! The tests of folds, merges and printed text, over public calls alone.
#![tactic(auto)]

#[cfg(test)]
mod batches;
#[cfg(test)]
mod folds;
#[cfg(test)]
mod texts;
