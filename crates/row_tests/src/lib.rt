//! Tests of the readers of rows over their public calls.
#![tactic(auto)]

#[cfg(test)]
mod direct_reads;
#[cfg(test)]
mod kept_rows;
#[cfg(test)]
mod walks;
