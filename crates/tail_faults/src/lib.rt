//! Which faults the bytes of a tail, and those of a stripe's footer, can have, as laws: functions that do nothing, whose contracts
//! are what holds.
#![tactic(auto)]

pub mod laws;
