use plan_words::PlanKind;

/// Why a plan isn't read.
#[derive(Clone, Copy, PartialEq, Eq)]
pub enum PlanError {
    /// The plan is refused.
    Fault {
        /// The first bad line, counted from 1, or 0 where the plan is too long.
        line: u32,
        /// What is wrong with it.
        kind: PlanKind,
    },
    /// Memory was asked for, and refused.
    NoMemory,
}
