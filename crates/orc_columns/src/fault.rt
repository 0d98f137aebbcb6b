//! Why a column can't be read.
ghost use Rattle.std.specs.Prelude.{◌≡◌};
ghost use Rattle.orc_columns.specs.Draws.{of_run};
ghost use Rattle.orc_columns.specs.declared.fault.ColumnFault.TheVariants as fault;

use outside::{Failed, NoMemory, RunFault};
use std::alloc::{AllocError, AllocFailed};

/// A stream of a column that is made of runs.
#[derive(Clone, Copy, Debug, PartialEq, Eq)]
pub enum StreamName {
    /// PRESENT.
    Present,
    /// DATA.
    Body,
    /// LENGTH.
    Length,
}

/// The first condition that refuses a column of a stripe, or what kept it from being read.
///
/// The conditions stand in the order in which they are judged, each over all rows: the encoding, PRESENT, LENGTH,
/// negative lengths, lengths past the data, DATA, and the numbers of dictionary entries. That order is this project's own.
///
/// Source: Apache ORC specification v1, "Column Encodings".
#[derive(Clone, Copy, Debug, PartialEq, Eq)]
pub enum ColumnFault {
    /// There is no encoding, or the column's kind hasn't this one.
    BadEncoding,
    /// A run of this stream isn't whole. The run's fault is never `RunFault::Read`.
    Run(StreamName, RunFault),
    /// A length has its 64th bit set.
    NegativeLength,
    /// The lengths have more bytes together than the texts' stream.
    LengthsPastData,
    /// The number of an entry isn't below the dictionary's size.
    IndexOutOfDictionary,
    /// The feed failed.
    Read(Failed),
    /// Memory was refused.
    NoMemory,
}

impl From<Failed> for ColumnFault {
    ghost from_gives = { λ failed e. e ≡ fault.Read failed };

    fn from(failed: Failed) -> ColumnFault {
        ColumnFault::Read(failed)
    }
}

impl From<NoMemory> for ColumnFault {
    ghost from_gives = { λ _ e. e ≡ fault.NoMemory };

    fn from(_error: NoMemory) -> ColumnFault {
        ColumnFault::NoMemory
    }
}

impl From<AllocError> for ColumnFault {
    ghost from_gives = { λ _ e. e ≡ fault.NoMemory };

    fn from(_error: AllocError) -> ColumnFault {
        ColumnFault::NoMemory
    }
}

impl<T: Drop> From<AllocFailed<T>> for ColumnFault {
    ghost from_gives = { λ _ e. e ≡ fault.NoMemory };

    fn from(_error: AllocFailed<T>) -> ColumnFault {
        ColumnFault::NoMemory
    }
}

/// The fault of a column by the fault of a run in one of its streams.
pub(crate) fn of_run(name: StreamName, fault: RunFault) -> ColumnFault
    ensures { result ≡ of_run name fault }
{
    match fault {
        RunFault::Read(failed) => ColumnFault::Read(failed),
        _ => ColumnFault::Run(name, fault),
    }
}
