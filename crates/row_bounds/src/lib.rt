//! How many rows the bytes of a file can spell, as laws: functions that do nothing, whose contracts are what holds.
#![tactic(auto)]

pub mod laws;
