//! Tests of `orc_proto` and `orc_tail` over their public calls.
#![tactic(auto)]

#[cfg(test)]
mod messages;
#[cfg(test)]
mod reading;
#[cfg(test)]
mod stripe_footers;
#[cfg(test)]
mod tails;
