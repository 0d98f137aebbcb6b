//! The tests of the plan language, over public calls alone.
#![tactic(auto)]

#[cfg(test)]
mod described;
#[cfg(test)]
mod faults;
#[cfg(test)]
mod fragments;
#[cfg(test)]
mod texts;
