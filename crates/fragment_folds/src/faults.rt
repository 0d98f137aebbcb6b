/// A total, a sum or any count, isn't in the 64 bits of `i64`.
#[derive(Clone, Copy, PartialEq, Eq)]
pub struct Overflow;

/// Why a merge has no answer.
#[derive(Clone, Copy, PartialEq, Eq)]
pub enum MergeFault {
    /// A total, a sum or any count, isn't in the 64 bits of `i64`.
    Overflow,
    /// Memory was asked for, and refused.
    NoMemory,
}
