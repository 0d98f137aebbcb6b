//! What a scan of a plan that names no column does, as laws: functions that do nothing, whose contracts are what holds.
#![tactic(auto)]

pub mod laws;
