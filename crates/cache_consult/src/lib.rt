//! What the eviction policy learns of a pool: the touches of its headers since they were last taken.
#![tactic(auto)]

mod consulting;

pub use consulting::consult;
