//! Why a walk over rows ended before the last one.
ghost use Rattle.std.specs.Prelude.{◌≡◌};
ghost use Rattle.orc_walk.specs.Stops.{stop_of_column, stop_of_footer};

use orc_columns::ColumnFault;
use orc_rows::RowsFault;
use orc_tail::TailFault;
use outside::Failed;

/// Why a call has no answer.
#[derive(Drop)]
pub enum Stop<E> {
    /// What was read decides it: the content is at fault.
    Fault(E),
    /// A read failed.
    Read(Failed),
    /// Memory was refused.
    NoMemory,
}

/// Why a walk stops where a column has this fault.
pub(crate) fn column_stop(fault: ColumnFault) -> Stop<ColumnFault>
    ensures { result ≡ stop_of_column fault }
{
    match fault {
        ColumnFault::Read(failed) => Stop::Read(failed),
        ColumnFault::NoMemory => Stop::NoMemory,
        fault => Stop::Fault(fault),
    }
}

/// Why a walk stops where the footer of the stripe of that number has this fault.
pub(crate) fn footer_stop(stripe: u32, fault: TailFault) -> Stop<RowsFault>
    ensures { result ≡ stop_of_footer stripe fault }
{
    match fault {
        TailFault::Read(failed) => Stop::Read(failed),
        TailFault::NoMemory => Stop::NoMemory,
        fault => Stop::Fault(RowsFault::BrokenFooter { stripe, fault }),
    }
}
