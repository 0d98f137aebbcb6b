//! Why a file's tail or a stripe's footer is refused.

ghost use Rattle.std.specs.Prelude.{◌≡◌};
ghost use Rattle.orc_tail.specs.declared.fault.TailFault.TheVariants.{Wire, Read, NoMemory};

use orc_proto::WireFault;
use outside::Failed;
use std::alloc::{AllocError, AllocFailed};

/// The first condition that refuses a file's tail or a stripe's footer, or what kept it from being read.
///
/// Source: Apache ORC specification v1, "File Tail" and "Stripe Footer"; the conditions and their order are
/// this project's own.
#[derive(Clone, Copy, PartialEq, Eq)]
pub enum TailFault {
    /// The file is empty, or shorter than its PostScript and the byte with the PostScript's length.
    TooShort,
    /// The PostScript is no message, or its magic isn't `ORC`.
    NotOrc,
    /// The PostScript names a compression, which has this number.
    Compressed(u64),
    /// A message, or a packed list of subtypes, is broken. The offset is counted in the message, or in the
    /// packed bytes, that hold the fault.
    Wire(WireFault),
    /// The footer, or a stripe, doesn't lie in the file.
    OutOfFile,
    /// There is no type, or type 0 isn't a STRUCT whose children are types with a name each.
    BadTypes,
    /// The file has more than 4,294,967,295 bytes, or more than 1,000,000 stripes.
    TooLarge,
    /// The root column has a PRESENT stream with bytes.
    RootPresent,
    /// The streams have more bytes than the stripe's index and data.
    StreamOutOfStripe,
    /// The reader failed.
    Read(Failed),
    /// Memory was refused.
    NoMemory,
}

impl From<WireFault> for TailFault {
    ghost from_gives = { λ fault e. e ≡ Wire fault };

    fn from(fault: WireFault) -> TailFault {
        TailFault::Wire(fault)
    }
}

impl From<Failed> for TailFault {
    ghost from_gives = { λ failed e. e ≡ Read failed };

    fn from(failed: Failed) -> TailFault {
        TailFault::Read(failed)
    }
}

impl From<AllocError> for TailFault {
    ghost from_gives = { λ _ e. e ≡ NoMemory };

    fn from(_error: AllocError) -> TailFault {
        TailFault::NoMemory
    }
}

impl<T: Drop> From<AllocFailed<T>> for TailFault {
    ghost from_gives = { λ _ e. e ≡ NoMemory };

    fn from(_error: AllocFailed<T>) -> TailFault {
        TailFault::NoMemory
    }
}
