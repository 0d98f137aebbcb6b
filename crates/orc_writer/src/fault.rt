//! Why a file wasn't written.
use outside::Failed;

/// Why a file wasn't written.
#[derive(Clone, Copy, Debug, PartialEq, Eq)]
pub enum MakeFault {
    /// A write failed.
    Write(Failed),
    /// Memory was refused.
    NoMemory,
}
