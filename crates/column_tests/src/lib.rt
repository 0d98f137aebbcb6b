//! Tests of columns over their public calls: rows and faults of each spelling, takes in turn, rows that are only claimed, and the
//! typed lists behind a column.
#![tactic(auto)]

#[cfg(test)]
mod case;
#[cfg(test)]
mod case_feed;
#[cfg(test)]
mod columns;
#[cfg(test)]
mod takes;
#[cfg(test)]
mod values;
